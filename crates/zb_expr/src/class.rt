ghost use Rattle.std.specs.Prelude.{◌≡◌};
ghost use Rattle.std.specs.List.{prefix_len};
ghost use Rattle.zb_expr.specs.Spelling.{is_in, is_decimal, begins_name};

/// A class of bytes, of which a run makes a token or stands between two.
#[derive(Clone, Copy, Debug, PartialEq, Eq)]
pub enum Class {
    Digit,
    Word,
    Space,
}

/// Whether a byte is a decimal digit.
pub fn is_decimal_digit(byte: u8) -> bool
    ensures { result ≡ is_decimal byte }
{
    b'0' <= byte && byte <= b'9'
}

/// Whether a name may begin with a byte.
pub fn begins_word(byte: u8) -> bool
    ensures { result ≡ begins_name byte }
{
    b'A' <= byte && byte <= b'Z' || b'a' <= byte && byte <= b'z' || byte == b'_'
}

/// How many bytes of the class stand first. It takes a step for each of them.
pub fn run_length(class: Class, bytes: &[u8]) -> usize
    ensures { result ≡ prefix_len (is_in class) bytes.now }
{
    for (index, byte) in bytes.iter().enumerate() {
        if !has_byte(class, *byte) {
            return index;
        }
    }
    bytes.len()
}

fn has_byte(class: Class, byte: u8) -> bool
    ensures { result ≡ is_in class byte }
{
    match class {
        Class::Digit => is_decimal_digit(byte),
        Class::Word => begins_word(byte) || is_decimal_digit(byte),
        Class::Space => byte == b' ',
    }
}
