//! Kinds of bytes.

ghost use Rattle.std.specs.Prelude.{◌≡◌};
ghost use Rattle.tie_lexer.specs.Bytes as class;

pub fn is_letter(b: u8) -> bool
    ensures { result ≡ class.is_letter b }
{
    b.is_ascii_alphabetic()
}

pub fn is_digit(b: u8) -> bool
    ensures { result ≡ class.is_digit b }
{
    b'0' <= b && b <= b'9'
}

pub fn is_hexadecimal_digit(b: u8) -> bool
    ensures { result ≡ class.is_hexadecimal_digit b }
{
    is_digit(b) || b'A' <= b && b <= b'F' || b'a' <= b && b <= b'f'
}

pub fn is_binary_digit(b: u8) -> bool
    ensures { result ≡ class.is_binary_digit b }
{
    b'0' <= b && b <= b'1'
}

pub fn is_word_byte(b: u8) -> bool
    ensures { result ≡ class.is_word_byte b }
{
    is_letter(b) || is_digit(b) || b == b'_'
}

pub fn is_blank(b: u8) -> bool
    ensures { result ≡ class.is_blank b }
{
    b == b' ' || b == b'\t' || b == b'\n' || b == b'\r'
}

pub fn is_text_byte(b: u8) -> bool
    ensures { result ≡ class.is_text_byte b }
{
    b' ' <= b && b <= b'~' || is_blank(b)
}

pub fn is_base(letter: u8) -> bool
    ensures { result ≡ class.is_base letter }
{
    letter == b'h' || letter == b'd' || letter == b'b'
}

pub fn is_digit_of(letter: u8, b: u8) -> bool
    ensures { result ≡ class.is_digit_of letter b }
{
    if letter == b'h' {
        is_hexadecimal_digit(b)
    } else if letter == b'd' {
        is_digit(b)
    } else {
        is_binary_digit(b)
    }
}

pub fn is_value_byte(letter: u8, b: u8) -> bool
    ensures { result ≡ class.is_value_byte letter b }
{
    is_digit_of(letter, b) || b == b'_'
}
