// The laws of the steps: what completes the state before a step completes the state behind it, and the reverse.
ghost use Rattle.std.specs.Prelude.{ℕ, Bool, ◌≡◌, ◌↔◌, ◌∷◌, ◌++◌, [], IsTrue, Some, None, Option as Maybe, false, true, List as Sequence};
ghost use Rattle.po_tree.specs.declared.declaration.Decl.{Decl};
ghost use Rattle.po_tree.specs.declared.declaration.Init.{Init};
ghost use Rattle.po_tree.specs.declared.expression.Declarator.{Declarator};
ghost use Rattle.po_tree.specs.declared.expression.Exp.{Exp};
ghost use Rattle.po_tree.specs.declared.expression.Member.{Member, roll-Member};
ghost use Rattle.po_tree.specs.declared.expression.Param.{Param};
ghost use Rattle.po_tree.specs.declared.expression.Suffix.TheVariants as su;
ghost use Rattle.po_tree.specs.declared.expression.Specifier.{Specifier};
ghost use Rattle.po_tree.specs.Declarations.{IsDeclared, IsTypedef};
ghost use Rattle.po_tree.specs.Expressions.{Typed, untyped};
ghost use Rattle.po_tree.specs.Signs.{Sign, word, opening, closing, brace_end, comma, semicolon, equals, dots};
ghost use Rattle.po_exp_parts.specs.Places.{BeginsName, Begins};
ghost use Rattle.po_exp_parts.specs.Finding.{suffix_of};
ghost use Rattle.po_init_read.specs.Initialisers.{StandsEnded};
ghost use Rattle.po_exp_parts.specs.declared.seen.Seen.{Seen};
ghost use Rattle.po_exp_parts.specs.declared.seen.Seen.TheVariants as seen;
ghost use Rattle.po_decl_parts.specs.Sizes.{SizesRead};
ghost use Rattle.po_exp_parts.specs.Seen.{typed};
ghost use Rattle.po_decl_parts.specs.Specifiers.{Opens, SpecifierStands, NoSpecifier};
ghost use Rattle.po_exp_parts.specs.Stars.{StarsRead};
ghost use Rattle.po_decl_laws.specs.Fronts.{EndsSpecifiers};
ghost use Rattle.po_decl_steps.specs.declared.levels.Owner.TheVariants as of;
ghost use Rattle.po_decl_steps.specs.declared.levels.Level.{Level};
ghost use Rattle.po_decl_steps.specs.declared.levels.Focus.TheVariants as focus;
ghost use Rattle.po_decl_steps.specs.Standing.{DeclarationStands};
ghost use Rattle.po_decl_steps.specs.Completing.{Completes, Outside, body, list, declares, is_outer, is_parameter};
ghost use Rattle.po_decl_steps.specs.Steps.{Alike, NoBody, WordWanted, SuffixWanted, ValueWanted, PartsWanted, DeclaratorsWanted, MembersWanted, ParamsWanted};

use po_init_read::one_initialiser_before_an_end;

/// What stands at the front is what completes nothing read. It does nothing.
pub fn nothing_read_is_completed()
    ensures { (types : Sequence (Sequence ℕ)) (signs : Sequence Sign) → Alike (DeclarationStands types signs) (λ y left. Completes y left [] [] types (record { specs = []; free = true; seen = seen.Nothing; owner = of.Declaration false [] }) focus.Specifiers signs) }
{}

/// Where a specifier stands, what completes the specifiers before it completes those with it behind it. It does nothing.
pub fn a_specifier_is_read()
    ensures { (below : Sequence Level) (outers : Sequence (Sequence (Sequence ℕ))) (types behind : Sequence (Sequence ℕ)) (l : Level) (free : Bool) (now : Seen) (spec : Specifier) (signs left : Sequence Sign) → SpecifierStands (is_outer l.owner) l.free types (typed l.seen) signs spec free behind (typed now) left → Alike (λ y rest. Completes y rest below outers types l focus.Specifiers signs) (λ y rest. Completes y rest below outers behind (record { specs = l.specs ++ spec ∷ []; free = free; seen = now; owner = l.owner }) focus.Specifiers left) }
{}

/// Where the body of a struct opens, its first member is wanted one level further inside (C99 6.7.2.1). It does nothing.
pub fn a_body_opens()
    ensures { (below : Sequence Level) (outers : Sequence (Sequence (Sequence ℕ))) (types : Sequence (Sequence ℕ)) (l : Level) (tag : Maybe (Sequence ℕ)) (signs left : Sequence Sign) → typed l.seen ≡ untyped → Opens signs tag left → Alike (λ y rest. Completes y rest below outers types l focus.Specifiers signs) (λ y rest. Completes y rest (l ∷ below) outers types (record { specs = []; free = false; seen = seen.Nothing; owner = of.Member tag [] [] }) focus.Specifiers left) }
{}

/// A semicolon behind the specifiers of a declaration ends it, and there is no other. It does nothing.
pub fn a_whole_declaration_ends()
    ensures { (below : Sequence Level) (outers : Sequence (Sequence (Sequence ℕ))) (types : Sequence (Sequence ℕ)) (l : Level) (typedef : Bool) (parts : Sequence (Declarator × Maybe Init)) (signs left : Sequence Sign) → l.owner ≡ of.Declaration typedef parts → EndsSpecifiers types (typed l.seen) signs → (l.specs ≡ [] → ⊥) → signs ≡ semicolon ∷ left → Completes (record { specs = l.specs; parts = parts }) left below outers types l focus.Specifiers signs × ((y : Decl) (rest : Sequence Sign) → Completes y rest below outers types l focus.Specifiers signs → (y ≡ record { specs = l.specs; parts = parts }) × (rest ≡ left)) }
{}

/// What completes a declarator completes it behind its stars (C99 6.7.5.1). It does nothing.
pub fn stars_are_read()
    ensures { (below : Sequence Level) (l : Level) (outers : Sequence (Sequence (Sequence ℕ))) (types : Sequence (Sequence ℕ)) (stars : Sequence (Sequence (Sequence ℕ))) (signs left : Sequence Sign) → StarsRead signs stars left → Alike (λ y rest. Completes y rest below outers types l focus.Declarator signs) (WordWanted below l stars outers types left) }
{}

/// The same behind its word, where that may be declared. It does nothing.
pub fn words_are_read()
    ensures { (below : Sequence Level) (l : Level) (outers : Sequence (Sequence (Sequence ℕ))) (types : Sequence (Sequence ℕ)) (stars : Sequence (Sequence (Sequence ℕ))) (text : Sequence ℕ) (signs left : Sequence Sign) → signs ≡ word text ∷ left → IsDeclared types (typed l.seen) text → Alike (WordWanted below l stars outers types signs) (SuffixWanted below l stars (Some text) outers types left) }
{}

/// Where no parenthesis opens behind the word, all sizes that stand there end the declarator (C99 6.7.5.2). It does nothing.
pub fn sizes_end_a_declarator()
    ensures { (below : Sequence Level) (l : Level) (outers : Sequence (Sequence (Sequence ℕ))) (types : Sequence (Sequence ℕ)) (stars : Sequence (Sequence (Sequence ℕ))) (name : Maybe (Sequence ℕ)) (sizes : Sequence (Maybe Exp)) (signs left : Sequence Sign) → (Begins opening signs → ⊥) → SizesRead types signs sizes left → Alike (SuffixWanted below l stars name outers types signs) (λ y rest. Completes y rest below outers types l (focus.Behind (record { stars = stars; name = name; suffix = suffix_of sizes })) left) }
{}

/// Where one opens and doesn't close at once, the first parameter is wanted one level further inside, in a scope of its own (C99 6.7.5.3).
/// It does nothing.
pub fn a_list_opens()
    ensures { (below : Sequence Level) (l : Level) (outers : Sequence (Sequence (Sequence ℕ))) (types : Sequence (Sequence ℕ)) (stars : Sequence (Sequence (Sequence ℕ))) (name : Maybe (Sequence ℕ)) (signs : Sequence Sign) → (Begins closing signs → ⊥) → Alike (SuffixWanted below l stars name outers types (opening ∷ signs)) (λ y rest. Completes y rest (l ∷ below) (types ∷ outers) types (record { specs = []; free = true; seen = seen.Nothing; owner = of.Param stars name [] }) focus.Specifiers signs) }
{}

/// Where a member's or a parameter's specifiers end, its declarator is wanted. It does nothing.
pub fn specifiers_are_complete()
    ensures members { (below : Sequence Level) (outers : Sequence (Sequence (Sequence ℕ))) (types : Sequence (Sequence ℕ)) (specs : Sequence Specifier) (free : Bool) (now : Seen) (tag : Maybe (Sequence ℕ)) (members : Sequence Member) (declarators : Sequence Declarator) (signs : Sequence Sign) → EndsSpecifiers types (typed now) signs → (specs ≡ [] → ⊥) → Alike (λ y rest. Completes y rest below outers types (record { specs = specs; free = free; seen = now; owner = of.Member tag members declarators }) focus.Specifiers signs) (λ y rest. Completes y rest below outers types (record { specs = specs; free = free; seen = now; owner = of.Member tag members declarators }) focus.Declarator signs) }
    ensures params { (below : Sequence Level) (outers : Sequence (Sequence (Sequence ℕ))) (types : Sequence (Sequence ℕ)) (specs : Sequence Specifier) (free : Bool) (now : Seen) (stars : Sequence (Sequence (Sequence ℕ))) (name : Maybe (Sequence ℕ)) (params : Sequence Param) (signs : Sequence Sign) → EndsSpecifiers types (typed now) signs → (specs ≡ [] → ⊥) → Alike (λ y rest. Completes y rest below outers types (record { specs = specs; free = free; seen = now; owner = of.Param stars name params }) focus.Specifiers signs) (λ y rest. Completes y rest below outers types (record { specs = specs; free = free; seen = now; owner = of.Param stars name params }) focus.Declarator signs) }
    ensures parts { (below : Sequence Level) (outers : Sequence (Sequence (Sequence ℕ))) (types : Sequence (Sequence ℕ)) (specs : Sequence Specifier) (free : Bool) (now : Seen) (typedef flag : Bool) (parts : Sequence (Declarator × Maybe Init)) (signs : Sequence Sign) → EndsSpecifiers types (typed now) signs → (specs ≡ [] → ⊥) → (Begins semicolon signs → ⊥) → (IsTrue flag ↔ IsTypedef specs) → Alike (λ y rest. Completes y rest below outers types (record { specs = specs; free = free; seen = now; owner = of.Declaration typedef parts }) focus.Specifiers signs) (λ y rest. Completes y rest below outers types (record { specs = specs; free = free; seen = now; owner = of.Declaration flag parts }) focus.Declarator signs) }
{}

/// Where specifiers don't end, no specifier stands and no body opens, nothing completes them. It does nothing.
pub fn nothing_else_follows_specifiers()
    ensures { (below : Sequence Level) (outers : Sequence (Sequence (Sequence ℕ))) (types : Sequence (Sequence ℕ)) (l : Level) (signs rest : Sequence Sign) (y : Decl) → (EndsSpecifiers types (typed l.seen) signs → ⊥) → NoSpecifier (is_outer l.owner) l.free types (typed l.seen) signs → NoBody (typed l.seen) signs → Completes y rest below outers types l focus.Specifiers signs → ⊥ }
{}

/// A parameter's declarator may lack its word. It does nothing.
pub fn words_may_be_missing()
    ensures { (below : Sequence Level) (l : Level) (outers : Sequence (Sequence (Sequence ℕ))) (types : Sequence (Sequence ℕ)) (stars : Sequence (Sequence (Sequence ℕ))) (signs : Sequence Sign) → ((text : Sequence ℕ) → BeginsName text signs → ⊥) → is_parameter l.owner ≡ true → Alike (WordWanted below l stars outers types signs) (SuffixWanted below l stars None outers types signs) }
{}

/// A list of parameters that closes at once is empty. It does nothing.
pub fn an_empty_list_ends_a_declarator()
    ensures { (below : Sequence Level) (l : Level) (outers : Sequence (Sequence (Sequence ℕ))) (types : Sequence (Sequence ℕ)) (stars : Sequence (Sequence (Sequence ℕ))) (name : Maybe (Sequence ℕ)) (signs left : Sequence Sign) → signs ≡ closing ∷ left → Alike (SuffixWanted below l stars name outers types (opening ∷ signs)) (λ y rest. Completes y rest below outers types l (focus.Behind (record { stars = stars; name = name; suffix = su.Params [] false })) left) }
{}

/// A declared word is in force behind its declarator, before its initialiser: a typedef name or one that hides a typedef name
/// (C99 6.2.1p7). It does nothing.
pub fn a_word_is_in_force_behind_its_declarator()
    ensures { (below : Sequence Level) (outers : Sequence (Sequence (Sequence ℕ))) (types : Sequence (Sequence ℕ)) (specs : Sequence Specifier) (free typedef : Bool) (now : Seen) (parts : Sequence (Declarator × Maybe Init)) (item : Declarator) (name : Sequence ℕ) (signs : Sequence Sign) → item.name ≡ Some name → Alike (λ y rest. Completes y rest below outers types (record { specs = specs; free = free; seen = now; owner = of.Declaration typedef parts }) (focus.Behind item) signs) (ValueWanted specs (typed now) typedef parts item (declares typedef name types) signs) }
{}

/// An initialiser is read where one is written, and else none (C99 6.7.8). It does nothing.
pub fn initialisers_are_read()
    ensures bare { (specs : Sequence Specifier) (now : Typed) (typedef : Bool) (parts : Sequence (Declarator × Maybe Init)) (item : Declarator) (types : Sequence (Sequence ℕ)) (signs : Sequence Sign) → (Begins equals signs → ⊥) → Alike (ValueWanted specs now typedef parts item types signs) (PartsWanted specs now typedef (parts ++ (item, None) ∷ []) types signs) }
    ensures value { (specs : Sequence Specifier) (now : Typed) (typedef : Bool) (parts : Sequence (Declarator × Maybe Init)) (item : Declarator) (types : Sequence (Sequence ℕ)) (x : Init) (signs inside left : Sequence Sign) → signs ≡ equals ∷ inside → StandsEnded types inside x left → Alike (ValueWanted specs now typedef parts item types signs) (PartsWanted specs now typedef (parts ++ (item, Some x) ∷ []) types left) }
{
    one_initialiser_before_an_end();
}

/// Behind a comma a further declarator of a declaration, or of members, is wanted. It does nothing.
pub fn a_comma_wants_a_declarator()
    ensures parts { (below : Sequence Level) (outers : Sequence (Sequence (Sequence ℕ))) (types : Sequence (Sequence ℕ)) (specs : Sequence Specifier) (free typedef : Bool) (now : Seen) (parts : Sequence (Declarator × Maybe Init)) (signs left : Sequence Sign) → signs ≡ comma ∷ left → Alike (PartsWanted specs (typed now) typedef parts types signs) (λ y rest. Completes y rest below outers types (record { specs = specs; free = free; seen = now; owner = of.Declaration typedef parts }) focus.Declarator left) }
    ensures members { (below : Sequence Level) (outers : Sequence (Sequence (Sequence ℕ))) (types : Sequence (Sequence ℕ)) (specs : Sequence Specifier) (free : Bool) (now : Seen) (tag : Maybe (Sequence ℕ)) (members : Sequence Member) (declarators : Sequence Declarator) (signs left : Sequence Sign) → signs ≡ comma ∷ left → Alike (DeclaratorsWanted below outers specs (typed now) tag members declarators types signs) (λ y rest. Completes y rest below outers types (record { specs = specs; free = free; seen = now; owner = of.Member tag members declarators }) focus.Declarator left) }
{}

/// Behind a semicolon a member is whole; then a further one is wanted, or a brace closes the body. It does nothing.
pub fn members_follow_one_another()
    ensures whole { (below : Sequence Level) (outers : Sequence (Sequence (Sequence ℕ))) (types : Sequence (Sequence ℕ)) (specs : Sequence Specifier) (now : Typed) (tag : Maybe (Sequence ℕ)) (members : Sequence Member) (declarators : Sequence Declarator) (signs left : Sequence Sign) → signs ≡ semicolon ∷ left → Alike (DeclaratorsWanted below outers specs now tag members declarators types signs) (MembersWanted below outers tag (members ++ roll-Member (record { specs = specs; declarators = declarators }) ∷ []) types left) }
    ensures further { (below : Sequence Level) (outers : Sequence (Sequence (Sequence ℕ))) (types : Sequence (Sequence ℕ)) (tag : Maybe (Sequence ℕ)) (members : Sequence Member) (signs : Sequence Sign) → (Begins brace_end signs → ⊥) → Alike (MembersWanted below outers tag members types signs) (λ y rest. Completes y rest below outers types (record { specs = []; free = false; seen = seen.Nothing; owner = of.Member tag members [] }) focus.Specifiers signs) }
    ensures closed { (below : Sequence Level) (outers : Sequence (Sequence (Sequence ℕ))) (types : Sequence (Sequence ℕ)) (tag : Maybe (Sequence ℕ)) (members : Sequence Member) (signs left : Sequence Sign) → signs ≡ brace_end ∷ left → Alike (MembersWanted below outers tag members types signs) (λ y rest. Outside y rest below outers (body tag members types) left) }
{}

/// Behind a parameter a further one is wanted, or its list closes, behind dots too (C99 6.7.5.3). It does nothing.
pub fn parameters_follow_one_another()
    ensures further { (below : Sequence Level) (outers : Sequence (Sequence (Sequence ℕ))) (types : Sequence (Sequence ℕ)) (stars : Sequence (Sequence (Sequence ℕ))) (name : Maybe (Sequence ℕ)) (params : Sequence Param) (signs left : Sequence Sign) → signs ≡ comma ∷ left → (Begins dots left → ⊥) → Alike (ParamsWanted below outers stars name params types signs) (λ y rest. Completes y rest below outers types (record { specs = []; free = true; seen = seen.Nothing; owner = of.Param stars name params }) focus.Specifiers left) }
    ensures closed { (below : Sequence Level) (outers : Sequence (Sequence (Sequence ℕ))) (types : Sequence (Sequence ℕ)) (stars : Sequence (Sequence (Sequence ℕ))) (name : Maybe (Sequence ℕ)) (params : Sequence Param) (signs left : Sequence Sign) → signs ≡ closing ∷ left → Alike (ParamsWanted below outers stars name params types signs) (λ y rest. Outside y rest below outers (list stars name params false) left) }
    ensures more { (below : Sequence Level) (outers : Sequence (Sequence (Sequence ℕ))) (types : Sequence (Sequence ℕ)) (stars : Sequence (Sequence (Sequence ℕ))) (name : Maybe (Sequence ℕ)) (params : Sequence Param) (signs inside left : Sequence Sign) → signs ≡ comma ∷ (dots ∷ inside) → inside ≡ closing ∷ left → Alike (ParamsWanted below outers stars name params types signs) (λ y rest. Outside y rest below outers (list stars name params true) left) }
{}

/// Where neither a word that may be declared stands nor one may be missing, and where sizes are wrong, nothing completes a declarator. It does
/// nothing.
pub fn nothing_else_is_a_declarator()
    ensures words { (below : Sequence Level) (l : Level) (outers : Sequence (Sequence (Sequence ℕ))) (types : Sequence (Sequence ℕ)) (stars : Sequence (Sequence (Sequence ℕ))) (text : Sequence ℕ) (signs left rest : Sequence Sign) (y : Decl) → signs ≡ word text ∷ left → (IsDeclared types (typed l.seen) text → ⊥) → WordWanted below l stars outers types signs y rest → ⊥ }
    ensures missing { (below : Sequence Level) (l : Level) (outers : Sequence (Sequence (Sequence ℕ))) (types : Sequence (Sequence ℕ)) (stars : Sequence (Sequence (Sequence ℕ))) (signs rest : Sequence Sign) (y : Decl) → ((text : Sequence ℕ) → BeginsName text signs → ⊥) → (is_parameter l.owner ≡ true → ⊥) → WordWanted below l stars outers types signs y rest → ⊥ }
    ensures sizes { (below : Sequence Level) (l : Level) (outers : Sequence (Sequence (Sequence ℕ))) (types : Sequence (Sequence ℕ)) (stars : Sequence (Sequence (Sequence ℕ))) (name : Maybe (Sequence ℕ)) (signs rest : Sequence Sign) (y : Decl) → (Begins opening signs → ⊥) → ((sizes : Sequence (Maybe Exp)) (left : Sequence Sign) → SizesRead types signs sizes left → ⊥) → SuffixWanted below l stars name outers types signs y rest → ⊥ }
{}

/// Behind a declarator stands a comma, or what ends its declaration, its members or its list; else nothing completes it. It does nothing.
pub fn nothing_else_follows_declarators()
    ensures parts { (specs : Sequence Specifier) (now : Typed) (typedef : Bool) (parts : Sequence (Declarator × Maybe Init)) (types : Sequence (Sequence ℕ)) (signs rest : Sequence Sign) (y : Decl) → (Begins comma signs → ⊥) → (Begins semicolon signs → ⊥) → PartsWanted specs now typedef parts types signs y rest → ⊥ }
    ensures members { (below : Sequence Level) (outers : Sequence (Sequence (Sequence ℕ))) (types : Sequence (Sequence ℕ)) (specs : Sequence Specifier) (now : Typed) (tag : Maybe (Sequence ℕ)) (members : Sequence Member) (declarators : Sequence Declarator) (signs rest : Sequence Sign) (y : Decl) → (Begins comma signs → ⊥) → (Begins semicolon signs → ⊥) → DeclaratorsWanted below outers specs now tag members declarators types signs y rest → ⊥ }
    ensures params { (below : Sequence Level) (outers : Sequence (Sequence (Sequence ℕ))) (types : Sequence (Sequence ℕ)) (stars : Sequence (Sequence (Sequence ℕ))) (name : Maybe (Sequence ℕ)) (params : Sequence Param) (signs rest : Sequence Sign) (y : Decl) → (Begins comma signs → ⊥) → (Begins closing signs → ⊥) → ParamsWanted below outers stars name params types signs y rest → ⊥ }
    ensures more { (below : Sequence Level) (outers : Sequence (Sequence (Sequence ℕ))) (types : Sequence (Sequence ℕ)) (stars : Sequence (Sequence (Sequence ℕ))) (name : Maybe (Sequence ℕ)) (params : Sequence Param) (signs inside rest : Sequence Sign) (y : Decl) → signs ≡ comma ∷ (dots ∷ inside) → (Begins closing inside → ⊥) → ParamsWanted below outers stars name params types signs y rest → ⊥ }
{}

/// A semicolon behind the parts of a declaration ends it, and there is no other. It does nothing.
pub fn a_declaration_ends_behind_its_parts()
    ensures { (specs : Sequence Specifier) (now : Typed) (typedef : Bool) (parts : Sequence (Declarator × Maybe Init)) (types : Sequence (Sequence ℕ)) (signs left : Sequence Sign) → (IsTrue typedef ↔ IsTypedef specs) → signs ≡ semicolon ∷ left → PartsWanted specs now typedef parts types signs (record { specs = specs; parts = parts }) left × ((y : Decl) (rest : Sequence Sign) → PartsWanted specs now typedef parts types signs y rest → (y ≡ record { specs = specs; parts = parts }) × (rest ≡ left)) }
{}
