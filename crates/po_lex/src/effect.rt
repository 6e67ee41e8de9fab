// What a line of the preprocessor says of the lines after it.
ghost use Rattle.std.specs.Prelude.{◌≡◌, nat_le};
ghost use Rattle.std.specs.List.{list_all};
ghost use Rattle.po_lex.specs.Directives.{is_name, is_proper};

use po_base::Text;

/// What a line of the preprocessor says of the lines after it.
#[derive(Debug, Drop)]
pub enum Effect {
    /// Nothing.
    Silent,
    /// The next line has this number; 2^31 stands for any greater one.
    Line(u32),
    /// The next line has this number, and the file has this name.
    Named(u32, Text),
}

/// Whether no byte is below 32. Time linear in the bytes.
fn are_printed(bytes: &[u8]) -> bool
    ensures { result ≡ list_all (λ c. nat_le 32 c) bytes.now }
{
    for byte in bytes {
        if *byte < 32 {
            return false;
        }
    }
    true
}

/// Whether bytes are the name of a file: UTF-8 without bytes below 32. Time linear in the bytes.
fn is_name(bytes: &[u8]) -> bool
    ensures { result ≡ is_name bytes.now }
{
    are_printed(bytes) && str::from_utf8(bytes).is_ok()
}

impl Effect {
    /// Whether the number is at most 2147483647 and the name that of a file.
    pub(crate) fn is_proper(&self) -> bool
        ensures { result ≡ is_proper self.now }
    {
        match self {
            Effect::Silent => true,
            Effect::Line(number) => *number < 1 << 31,
            Effect::Named(number, name) => *number < 1 << 31 && is_name(name.bytes()),
        }
    }
}
