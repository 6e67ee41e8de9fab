// Words of C.
ghost use Rattle.std.specs.Prelude.{◌↔◌, IsTrue, Contains, map, codes, ◌∷◌, []};
ghost use Rattle.po_tree.specs.Words.{IsName, keywords, storage_classes, type_words, qualifiers};
ghost use Rattle.po_exp_parts.specs.TypeWords.{type_keywords};

/// The keywords of C99 (6.4.1).
const KEYWORDS: [&[u8]; 37] = [
    b"auto",
    b"break",
    b"case",
    b"char",
    b"const",
    b"continue",
    b"default",
    b"do",
    b"double",
    b"else",
    b"enum",
    b"extern",
    b"float",
    b"for",
    b"goto",
    b"if",
    b"inline",
    b"int",
    b"long",
    b"register",
    b"restrict",
    b"return",
    b"short",
    b"signed",
    b"sizeof",
    b"static",
    b"struct",
    b"switch",
    b"typedef",
    b"union",
    b"unsigned",
    b"void",
    b"volatile",
    b"while",
    b"_Bool",
    b"_Complex",
    b"_Imaginary",
];

/// The storage-class specifiers (C99 6.7.1).
const STORAGE_CLASSES: [&[u8]; 5] = [b"typedef", b"extern", b"static", b"auto", b"register"];

/// The words of void and of the integer types (C99 6.7.2).
const TYPE_WORDS: [&[u8]; 8] = [
    b"void",
    b"char",
    b"short",
    b"int",
    b"long",
    b"signed",
    b"unsigned",
    b"_Bool",
];

/// Whether a text stands among these words. Time linear in their number.
pub fn is_among(text: &[u8], words: &[&[u8]]) -> bool
    ensures { IsTrue result ↔ Contains (map (λ w. w.now) words.now) text.now }
{
    for word in words {
        if *word == text {
            return true;
        }
    }
    false
}

/// Whether a word may be a name: it is no keyword of C99 (6.4.2.1).
pub fn is_name(text: &[u8]) -> bool
    ensures { IsTrue result ↔ IsName text.now }
{
    !is_among(text, &KEYWORDS)
}

/// Whether a word is a storage-class specifier (C99 6.7.1).
pub fn is_storage_class(text: &[u8]) -> bool
    ensures { IsTrue result ↔ Contains storage_classes text.now }
{
    is_among(text, &STORAGE_CLASSES)
}

/// Whether a word is one of `void` and the integer types (C99 6.7.2).
pub fn is_type_word(text: &[u8]) -> bool
    ensures { IsTrue result ↔ Contains type_words text.now }
{
    is_among(text, &TYPE_WORDS)
}

/// Whether a word is a type qualifier that is read (C99 6.7.3).
pub fn is_qualifier(text: &[u8]) -> bool
    ensures { IsTrue result ↔ Contains qualifiers text.now }
{
    text == b"const".as_slice() || text == b"restrict".as_slice()
}

/// Whether a word begins a specifier with a tag (C99 6.7.2.1, 6.7.2.2); `union` isn't read.
fn is_tag_word(text: &[u8]) -> bool
    ensures { IsTrue result ↔ Contains (codes "struct" ∷ codes "enum" ∷ []) text.now }
{
    text == b"struct".as_slice() || text == b"enum".as_slice()
}

/// Whether a word is a keyword with which a type name may begin (C99 6.7.6).
pub fn is_type_keyword(text: &[u8]) -> bool
    ensures { IsTrue result ↔ Contains type_keywords text.now }
{
    if is_tag_word(text) {
        return true;
    }
    is_type_word(text) || is_qualifier(text)
}
