// The types of type words (C99 6.7.2).
ghost use Rattle.std.specs.Prelude.{ℕ, List as Bytes, ◌≡◌, MatchOption, IfSome, Contains, map, count_by};
ghost use Rattle.po_tree.specs.Words.{type_words};
ghost use Rattle.po_types.specs.declared.ctype.CType.{CType as TypeOf};
ghost use Rattle.po_typed.specs.BaseTypes.{IsWordType};
ghost use Rattle.po_specified.specs.declared.word_types.RowType.{RowType as RowTypeOf};
ghost use Rattle.po_specified.specs.Words.{says};
ghost use Rattle.po_specified.specs.WordTypes as rows;

use crate::words::{are_words, count};
use po_arith::{IntType, Target};
use po_tree::Specifier;
use po_types::{BOOL, CHAR, CType, difference_type, size_type};

/// The type of a row of the table of type words, for each target.
#[derive(Clone, Copy)]
enum RowType {
    Void,
    Int(IntType),
    Long,
    UnsignedLong,
}

const UNSIGNED_CHAR: IntType = IntType {
    bits: 8,
    signed: false,
};

const SHORT: IntType = IntType {
    bits: 16,
    signed: true,
};

const UNSIGNED_SHORT: IntType = IntType {
    bits: 16,
    signed: false,
};

const UNSIGNED: IntType = IntType {
    bits: 32,
    signed: false,
};

const LONG_LONG: IntType = IntType {
    bits: 64,
    signed: true,
};

const UNSIGNED_LONG_LONG: IntType = IntType {
    bits: 64,
    signed: false,
};

/// How many times each of `void char short int long signed unsigned _Bool` stands in a row of the table of type words, and the row's
/// type (C99 6.7.2p2).
const ROWS: [([usize; 8], RowType); 28] = [
    ([1, 0, 0, 0, 0, 0, 0, 0], RowType::Void),
    ([0, 1, 0, 0, 0, 0, 0, 0], RowType::Int(CHAR)),
    ([0, 1, 0, 0, 0, 1, 0, 0], RowType::Int(CHAR)),
    ([0, 1, 0, 0, 0, 0, 1, 0], RowType::Int(UNSIGNED_CHAR)),
    ([0, 0, 1, 0, 0, 0, 0, 0], RowType::Int(SHORT)),
    ([0, 0, 1, 0, 0, 1, 0, 0], RowType::Int(SHORT)),
    ([0, 0, 1, 1, 0, 0, 0, 0], RowType::Int(SHORT)),
    ([0, 0, 1, 1, 0, 1, 0, 0], RowType::Int(SHORT)),
    ([0, 0, 1, 0, 0, 0, 1, 0], RowType::Int(UNSIGNED_SHORT)),
    ([0, 0, 1, 1, 0, 0, 1, 0], RowType::Int(UNSIGNED_SHORT)),
    ([0, 0, 0, 1, 0, 0, 0, 0], RowType::Int(IntType::INT)),
    ([0, 0, 0, 0, 0, 1, 0, 0], RowType::Int(IntType::INT)),
    ([0, 0, 0, 1, 0, 1, 0, 0], RowType::Int(IntType::INT)),
    ([0, 0, 0, 0, 0, 0, 1, 0], RowType::Int(UNSIGNED)),
    ([0, 0, 0, 1, 0, 0, 1, 0], RowType::Int(UNSIGNED)),
    ([0, 0, 0, 0, 1, 0, 0, 0], RowType::Long),
    ([0, 0, 0, 0, 1, 1, 0, 0], RowType::Long),
    ([0, 0, 0, 1, 1, 0, 0, 0], RowType::Long),
    ([0, 0, 0, 1, 1, 1, 0, 0], RowType::Long),
    ([0, 0, 0, 0, 1, 0, 1, 0], RowType::UnsignedLong),
    ([0, 0, 0, 1, 1, 0, 1, 0], RowType::UnsignedLong),
    ([0, 0, 0, 0, 2, 0, 0, 0], RowType::Int(LONG_LONG)),
    ([0, 0, 0, 0, 2, 1, 0, 0], RowType::Int(LONG_LONG)),
    ([0, 0, 0, 1, 2, 0, 0, 0], RowType::Int(LONG_LONG)),
    ([0, 0, 0, 1, 2, 1, 0, 0], RowType::Int(LONG_LONG)),
    ([0, 0, 0, 0, 2, 0, 1, 0], RowType::Int(UNSIGNED_LONG_LONG)),
    ([0, 0, 0, 1, 2, 0, 1, 0], RowType::Int(UNSIGNED_LONG_LONG)),
    ([0, 0, 0, 0, 0, 0, 0, 1], RowType::Int(BOOL)),
];

/// The type of a row on a target.
fn row_type(row: RowType, target: Target) -> CType
    ensures { result ≡ rows.row_type target row }
{
    match row {
        RowType::Void => CType::Void,
        RowType::Int(t) => CType::Int(t),
        RowType::Long => CType::Int(difference_type(target)),
        RowType::UnsignedLong => CType::Int(size_type(target)),
    }
}

/// How many times each type word stands among specifiers. Time linear in them.
fn counts(specs: &[Specifier]) -> [usize; 8]
    ensures { result ≡ map (λ word. count_by (says word) specs.now) type_words }
{
    [
        count(specs, b"void"),
        count(specs, b"char"),
        count(specs, b"short"),
        count(specs, b"int"),
        count(specs, b"long"),
        count(specs, b"signed"),
        count(specs, b"unsigned"),
        count(specs, b"_Bool"),
    ]
}

/// The type of the row with these counts, where there is one.
fn row_of(rows: &[([usize; 8], RowType)], counts: &[usize; 8]) -> Option<RowType>
    ensures among { MatchOption result (Contains (map (λ r. r.0) rows.now) counts.now → ⊥) (λ t. Contains (map (λ r. r.0) rows.now) counts.now) }
    ensures row { IfSome result (λ t. Contains {X = Bytes ℕ × RowTypeOf} (map (λ r. (r.0, r.1)) rows.now) (counts.now, t)) }
{
    for row in rows {
        if row.0 == *counts {
            return Some(row.1);
        }
    }
    None
}

/// The type that words say in any order (C99 6.7.2p2); None exactly where a specifier is no word, or the type words are those of no row of the table.
/// Time linear in the specifiers.
pub fn word_type(specs: &[Specifier], target: Target) -> Option<CType>
    ensures { MatchOption result ((t : TypeOf) → IsWordType target specs.now t → ⊥) (IsWordType target specs.now) }
{
    if !are_words(specs) {
        return None;
    }
    match row_of(&ROWS, &counts(specs)) {
        None => None,
        Some(row) => Some(row_type(row, target)),
    }
}
