// Suffixes of integer constants (C99 6.4.4.1).
ghost use Rattle.std.specs.Prelude.{ℕ, List, ◌≡◌, MatchOption, IfSome, Contains, map};
ghost use Rattle.po_constants.specs.declared.suffix.TypeMarks.{TypeMarks as Marks};
ghost use Rattle.po_tree.specs.Literals.{suffixes};
ghost use Rattle.po_typed.specs.Constants.{has_u, count_l};

/// What the suffix of an integer constant says: whether it has a `u`, and how many times it has an `l`.
#[derive(Clone, Copy)]
pub(crate) struct TypeMarks {
    pub unsigned: bool,
    pub longs: usize,
}

const PLAIN: TypeMarks = TypeMarks {
    unsigned: false,
    longs: 0,
};

const U: TypeMarks = TypeMarks {
    unsigned: true,
    longs: 0,
};

const L: TypeMarks = TypeMarks {
    unsigned: false,
    longs: 1,
};

const LL: TypeMarks = TypeMarks {
    unsigned: false,
    longs: 2,
};

const UL: TypeMarks = TypeMarks {
    unsigned: true,
    longs: 1,
};

const ULL: TypeMarks = TypeMarks {
    unsigned: true,
    longs: 2,
};

/// The suffixes of integer constants and what they say (C99 6.4.4.1).
const SUFFIXES: [(&[u8], TypeMarks); 23] = [
    (b"", PLAIN),
    (b"u", U),
    (b"U", U),
    (b"l", L),
    (b"L", L),
    (b"ll", LL),
    (b"LL", LL),
    (b"ul", UL),
    (b"uL", UL),
    (b"ull", ULL),
    (b"uLL", ULL),
    (b"Ul", UL),
    (b"UL", UL),
    (b"Ull", ULL),
    (b"ULL", ULL),
    (b"lu", UL),
    (b"lU", UL),
    (b"Lu", UL),
    (b"LU", UL),
    (b"llu", ULL),
    (b"llU", ULL),
    (b"LLu", ULL),
    (b"LLU", ULL),
];

/// What a table says of a text, where the text stands there.
fn marks_of(rows: &[(&[u8], TypeMarks)], text: &[u8]) -> Option<TypeMarks>
    ensures among { MatchOption result (Contains (map (λ r. r.0.now) rows.now) text.now → ⊥) (λ m. Contains (map (λ r. r.0.now) rows.now) text.now) }
    ensures row { IfSome result (λ m. Contains {X = List ℕ × Marks} (map (λ r. (r.0.now, r.1)) rows.now) (text.now, m)) }
{
    for row in rows {
        if row.0 == text {
            return Some(row.1);
        }
    }
    None
}

/// What a text says as the suffix of an integer constant; None where it is none.
pub(crate) fn suffix(text: &[u8]) -> Option<TypeMarks>
    ensures { MatchOption result (Contains suffixes text.now → ⊥) (λ s. Contains suffixes text.now × (s.unsigned ≡ has_u text.now) × (s.longs ≡ count_l text.now)) }
{
    marks_of(&SUFFIXES, text)
}
