// The signs.
ghost use Rattle.std.specs.Prelude.{◌≡◌};
ghost use Rattle.vale_lexer.specs.Next.{one_sign, two_sign};

use vale_syntax::Sign;

/// The sign that is this byte.
pub fn one_sign(byte: u8) -> Option<Sign>
    ensures { result ≡ one_sign byte }
{
    match byte {
        b'{' => Some(Sign::OpenBrace),
        b'}' => Some(Sign::CloseBrace),
        b'(' => Some(Sign::OpenParen),
        b')' => Some(Sign::CloseParen),
        b'[' => Some(Sign::OpenBracket),
        b']' => Some(Sign::CloseBracket),
        b',' => Some(Sign::Comma),
        b';' => Some(Sign::Semicolon),
        b'.' => Some(Sign::Dot),
        b'!' => Some(Sign::Bang),
        b'&' => Some(Sign::Ampersand),
        b'=' => Some(Sign::Assign),
        b'<' => Some(Sign::Less),
        b'>' => Some(Sign::Greater),
        b'+' => Some(Sign::Plus),
        b'-' => Some(Sign::Minus),
        b'*' => Some(Sign::Star),
        b'/' => Some(Sign::Slash),
        b'%' => Some(Sign::Percent),
        _ => None,
    }
}

/// The sign that is these two bytes.
pub fn two_sign(first: u8, second: u8) -> Option<Sign>
    ensures { result ≡ two_sign first second }
{
    match (first, second) {
        (b'.', b'.') => Some(Sign::DotDot),
        (b'=', b'=') => Some(Sign::Equal),
        (b'!', b'=') => Some(Sign::NotEqual),
        (b'<', b'=') => Some(Sign::LessEqual),
        (b'>', b'=') => Some(Sign::GreaterEqual),
        _ => None,
    }
}
