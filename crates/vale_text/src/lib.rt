//! The operations of a running program on numbers and texts, each with the trap that it may be (docs/LANGUAGE.md,
//! "Operations").
#![tactic(auto)]

mod laws;
mod numbers;
mod numerals;
mod texts;

pub use laws::{division_is_whole, joined_is_cut, written_is_read};
pub use numbers::{add, div, mul, rem, sub};
pub use numerals::{is_number, number, text_of};
pub use texts::{byte, join, slice};

#[cfg(test)]
mod tests {
    use super::*;
    use std::test::Fail;
    use vale_base::{Text, TrapKind};

    #[test]
    fn numbers_at_their_ends(rt: HostRuntime) {
        assert_eq!(rt; add(i64::MAX, 0), Ok(9_223_372_036_854_775_807));
        assert_eq!(rt; add(i64::MAX, 1), Err(TrapKind::Overflow));
        assert_eq!(rt; sub(-2, i64::MAX), Err(TrapKind::Overflow));
        assert_eq!(rt; mul(i64::MIN, -1), Err(TrapKind::Overflow));
        assert_eq!(rt; div(-7, 2), Ok(-3));
        assert_eq!(rt; div(7, 0), Err(TrapKind::DivisionByZero));
        assert_eq!(rt; div(i64::MIN, -1), Err(TrapKind::Overflow));
        assert_eq!(rt; rem(-7, 2), Ok(-1));
        assert_eq!(rt; rem(7, -2), Ok(1));
        assert_eq!(rt; rem(7, 0), Err(TrapKind::DivisionByZero));
        assert_eq!(rt; rem(i64::MIN, -1), Err(TrapKind::Overflow));
    }

    #[test]
    fn numbers_in_texts(rt: HostRuntime) -> Result<(), Fail> {
        let rows: [(&[u8], Result<i64, TrapKind>); 9] = [
            (b"-0", Ok(0)),
            (b"-", Err(TrapKind::NotANumber)),
            (b"", Err(TrapKind::NotANumber)),
            (b"+1", Err(TrapKind::NotANumber)),
            (b"007", Ok(7)),
            (b"9223372036854775807", Ok(i64::MAX)),
            (b"9223372036854775808", Err(TrapKind::NotANumber)),
            (b"-9223372036854775808", Ok(i64::MIN)),
            (b"-9223372036854775809", Err(TrapKind::NotANumber)),
        ];
        for (bytes, want) in rows {
            let text = Text::from_slice(rt.alloc(), bytes)?;
            assert_eq!(rt; number(&text), want);
            assert_eq!(rt; is_number(&text), want.is_ok());
        }
        Ok(())
    }

    // The length of the text, or the trap; None where memory was wanted.
    fn length(answer: Result<Text, vale_base::Fail<TrapKind>>) -> Option<Result<usize, TrapKind>> {
        match answer {
            Ok(text) => Some(Ok(text.len())),
            Err(vale_base::Fail::Is(kind)) => Some(Err(kind)),
            Err(vale_base::Fail::Memory) => None,
        }
    }

    #[test]
    fn texts_at_their_ends(rt: HostRuntime) -> Result<(), Fail> {
        let (too_long, outside) = (TrapKind::TextTooLong, TrapKind::IndexOutOfRange);
        let half = Text::from_slice(rt.alloc(), &[b'a'; 32_768])?;
        let more = Text::from_slice(rt.alloc(), &[b'a'; 32_769])?;
        assert_eq!(rt; length(join(rt.alloc(), &half, &half)), Some(Ok(65_536)));
        assert_eq!(rt; length(join(rt.alloc(), &half, &more)), Some(Err(too_long)));
        let least = text_of(rt.alloc(), i64::MIN)?;
        assert_eq!(rt; least.as_slice(), b"-9223372036854775808".as_slice());
        assert_eq!(rt; length(slice(rt.alloc(), &least, 20, 20)), Some(Ok(0)));
        assert_eq!(rt; length(slice(rt.alloc(), &least, 0, 20)), Some(Ok(20)));
        assert_eq!(rt;
            length(slice(rt.alloc(), &least, 0, 21)),
            Some(Err(outside))
        );
        assert_eq!(rt;
            length(slice(rt.alloc(), &least, -1, 3)),
            Some(Err(outside))
        );
        assert_eq!(rt; length(slice(rt.alloc(), &least, 3, 2)), Some(Err(outside)));
        assert_eq!(rt; byte(&least, 0), Ok(45));
        assert_eq!(rt; byte(&least, 20), Err(outside));
        assert_eq!(rt; byte(&least, -1), Err(outside));
        Ok(())
    }
}
