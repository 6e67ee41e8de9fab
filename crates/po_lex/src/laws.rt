// Laws of tokens and pieces: what parts are in the terms of C99, and that there is one division.
ghost use Rattle.std.specs.Prelude.{ℕ, ◌≡◌, ◌≤◌, ◌⊎◌, ◌++◌, ◌^◌, Bool, true, false, [], Some, min, map, length, List as Items};
ghost use Rattle.po_base.specs.declared.token.Token.{Token as Placed};
ghost use Rattle.po_base.specs.declared.token.Tokens.{Tokens as Lists};
ghost use Rattle.po_lex.specs.Division.{Part, Divides, AreTokens, ArePlaced, Fails, HasTooMany, Stands, start};
ghost use Rattle.po_lex.specs.Keeping.{Keeps, AreSelected};
ghost use Rattle.po_lex.specs.Brackets.{State, outset};
ghost use Rattle.po_lex.specs.Balance.{Balanced, steps};
ghost use Rattle.po_lex.specs.Pieces.{ArePieces, IsPiece, IsMisshapen};
ghost use Rattle.po_lex.specs.Laws.{StandInOrder, Cover};
ghost use Rattle.po_lex.specs.Directives.{directive_effect, plain, value};
ghost use Rattle.po_lex.specs.Markers.{IsMarker, IsNamedLine, IsNumberedLine};
ghost use Rattle.po_lex.specs.Texts.{IsComment, IsLiteral};
ghost use Rattle.po_lex.specs.declared.keeping.Context.{Context as Before};
ghost use Rattle.po_lex.specs.declared.shape.Piece.{Piece as Range};

use crate::effect::Effect;
use crate::part_kind::PartKind;

/// The part that stands at a place is the longest: no text that is a part by itself, and with which the bytes there
/// begin, has more bytes.
pub fn longest_part_stands()
    ensures { (fresh : Bool) (bytes : Items ℕ) (x y : Part) (rest left : Items ℕ) → Stands fresh bytes x rest → Stands true y.text y [] → bytes ≡ y.text ++ left → length y.text ≤ length x.text }
{}

/// A string is a literal of C99 6.4.5 between `"`, and a character constant one of 6.4.4.4 between `'`.
pub fn literals_are_those_of_c()
    ensures strings { (fresh : Bool) (bytes : Items ℕ) (x : Part) (rest : Items ℕ) → Stands fresh bytes x rest → x.part_kind ≡ PartKind.Str → IsLiteral 34 x.text }
    ensures characters { (fresh : Bool) (bytes : Items ℕ) (x : Part) (rest : Items ℕ) → Stands fresh bytes x rest → x.part_kind ≡ PartKind.Char → IsLiteral 39 x.text }
{}

/// A comment from `/*` on is one of C99 6.4.9; and where such a comment stands, whatever comes after it, it is the part
/// that stands there.
pub fn comments_are_those_of_c()
    ensures only { (fresh : Bool) (bytes : Items ℕ) (x : Part) (rest : Items ℕ) → Stands fresh bytes x rest → x.part_kind ≡ PartKind.Comment → IsComment x.text }
    ensures all { (fresh : Bool) (text rest : Items ℕ) → IsComment text → Stands fresh (text ++ rest) (record { part_kind = PartKind.Comment; text = text; effect = Effect.Silent }) rest }
{}

/// Where a literal of C99 stands, whatever comes after it, it is the part that stands there.
pub fn literals_of_c_stand()
    ensures strings { (fresh : Bool) (text rest : Items ℕ) → IsLiteral 34 text → Stands fresh (text ++ rest) (record { part_kind = PartKind.Str; text = text; effect = Effect.Silent }) rest }
    ensures characters { (fresh : Bool) (text rest : Items ℕ) → IsLiteral 39 text → Stands fresh (text ++ rest) (record { part_kind = PartKind.Char; text = text; effect = Effect.Silent }) rest }
{}

/// A line marker, as gcc writes it for C99 6.10.4, is read as one: it gives its number, 2^31 standing for any greater one, and
/// its name without escapes to the lines after it. So is a `#line`, with a name or without.
pub fn line_markers_are_read()
    ensures markers { (line digits name : Items ℕ) → IsMarker line digits name → directive_effect line ≡ Some (Effect.Named (min (2 ^ 31) (value 0 digits)) (plain false name)) }
    ensures names { (line digits name : Items ℕ) → IsNamedLine line digits name → directive_effect line ≡ Some (Effect.Named (min (2 ^ 31) (value 0 digits)) (plain false name)) }
    ensures numbers { (line digits : Items ℕ) → IsNumberedLine line digits → directive_effect line ≡ Some (Effect.Line (min (2 ^ 31) (value 0 digits))) }
{}

/// What gives a name to the lines after it is such a line marker, or a `#line` with a name; and what gives them a number alone is a `#line`
/// without one.
pub fn line_markers_are_those_of_c()
    ensures names { (line name : Items ℕ) (n : ℕ) → directive_effect line ≡ Some (Effect.Named n name) → (digits : Items ℕ) × (written : Items ℕ) × (IsMarker line digits written ⊎ IsNamedLine line digits written) × (n ≡ min (2 ^ 31) (value 0 digits)) × (name ≡ plain false written) }
    ensures numbers { (line : Items ℕ) (n : ℕ) → directive_effect line ≡ Some (Effect.Line n) → (digits : Items ℕ) × IsNumberedLine line digits × (n ≡ min (2 ^ 31) (value 0 digits)) }
{}

/// The bytes of a file have one division at most.
pub fn one_division()
    ensures { (bytes : Items ℕ) (xs ys : Items Part) → Divides start xs bytes [] → Divides start ys bytes [] → xs ≡ ys }
{}

/// A file of one name has one list of tokens at most, and one list of names at most.
pub fn one_token_list()
    ensures { (name bytes : Items ℕ) (xs ys : Lists) → AreTokens name bytes xs → AreTokens name bytes ys → xs ≡ ys }
{}

/// A file that has tokens doesn't fail, and neither does one that has too many.
pub fn tokens_or_failure()
    ensures tokens { (name bytes : Items ℕ) (xs : Lists) (line : ℕ) (directive : Bool) → AreTokens name bytes xs → Fails bytes line directive → ⊥ }
    ensures many { (bytes : Items ℕ) (line : ℕ) (directive : Bool) → HasTooMany bytes → Fails bytes line directive → ⊥ }
    ensures few { (name bytes : Items ℕ) (xs : Lists) → AreTokens name bytes xs → HasTooMany bytes → ⊥ }
{}

/// A file fails on one line at most, and in one way.
pub fn one_failure()
    ensures { (bytes : Items ℕ) (l m : ℕ) (b d : Bool) → Fails bytes l b → Fails bytes m d → (l ≡ m) × (b ≡ d) }
{}

/// The texts of a file's tokens stand in its bytes, one behind the other.
pub fn texts_stand_in_order()
    ensures { (name bytes : Items ℕ) (tokens : Lists) → AreTokens name bytes tokens → StandInOrder (map (λ t. t.text) tokens.list) bytes }
{}

/// The file of each token of a file is a place among the file's names.
pub fn tokens_are_placed()
    ensures { (name bytes : Items ℕ) (tokens : Lists) → AreTokens name bytes tokens → ArePlaced tokens }
{}

/// The kept tokens are some of the tokens, in their order, each as it is or with the word as which it is read.
pub fn kept_are_selected()
    ensures { (before : Before) (tokens kept : Items Placed) → Keeps before tokens kept → AreSelected tokens kept }
{}

/// Of the tokens of a file one list is kept at most.
pub fn one_kept_list()
    ensures { (before : Before) (tokens xs ys : Items Placed) → Keeps before tokens xs → Keeps before tokens ys → xs ≡ ys }
{}

/// Tokens have one list of pieces at most.
pub fn one_piece_list()
    ensures { (tokens : Items Placed) (xs ys : Items Range) → ArePieces tokens xs → ArePieces tokens ys → xs ≡ ys }
{}

/// Tokens that have pieces don't fail to.
pub fn pieces_or_failure()
    ensures { (tokens : Items Placed) (xs : Items Range) (line : ℕ) → ArePieces tokens xs → IsMisshapen tokens line → ⊥ }
{}

/// Tokens fail to have pieces on one line at most.
pub fn one_shape_failure()
    ensures { (tokens : Items Placed) (l m : ℕ) → IsMisshapen tokens l → IsMisshapen tokens m → l ≡ m }
{}

/// The brackets of tokens are balanced, as the grammar says, exactly where the walk over them leaves open what was open before
/// them: from any place where they are balanced, and where from the first place of a piece none is left open they are.
pub fn balanced_brackets()
    ensures back { (tokens : Items Placed) → Balanced tokens → (s : State) → (begins : Bool) × (steps (Some s) tokens ≡ Some (record { stack = s.stack; begins = begins })) }
    ensures balanced { (tokens : Items Placed) (s : State) → steps (Some outset) tokens ≡ Some s → s.stack ≡ [] → Balanced tokens }
{}

/// The brackets of each piece are balanced.
pub fn pieces_are_balanced()
    ensures { (tokens : Items Placed) (body : Bool) → IsPiece tokens body → Balanced tokens }
{}

/// The pieces of tokens cover them without a gap, and none is empty.
pub fn pieces_cover()
    ensures { (tokens : Items Placed) (pieces : Items Range) → ArePieces tokens pieces → Cover 0 pieces (length tokens) }
{}
