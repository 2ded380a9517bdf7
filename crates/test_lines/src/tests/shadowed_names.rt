//! Tests of `uwrite!` and `uwriteln!` where `Result`, `Ok` and `Err` are names of other things.
use super::asserts::same;
use test_rows::forwarded;
use ufmt::{Cursor, Formatter, uwriteln};

mod names {
    use example_print::Pair;
    use test_rows::by_builders;
    use ufmt::{Cursor, Formatter, Full, uwrite, uwriteln};

    #[derive(Drop)]
    pub struct Result;

    #[derive(Drop)]
    pub enum Choice {
        Ok,
        Err,
    }

    use Choice::{Err, Ok};

    pub fn write(f: &mut Formatter<Cursor<'_>>) -> [std::result::Result<(), Full>; 6] {
        let _names = (Ok, Err, Result);
        let of_u64 = Pair { x: 1u64, y: 2u64 };
        let of_i32 = Pair { x: 1i32, y: 2i32 };
        let by_builders = by_builders::Pair { x: 1u32, y: 2u32 };
        [
            uwrite!(f, debug of_u64),
            uwriteln!(f, debug of_i32),
            uwrite!(f, debug by_builders),
            uwriteln!(f, debug by_builders),
            uwrite!(f, text "Hello, world!"),
            uwriteln!(f, text "The answer is ", display 42i32),
        ]
    }
}

#[test]
fn uwrite_and_uwriteln_work_where_result_ok_and_err_are_shadowed(rt: HostRuntime) {
    let mut buffer = [0; 160];
    let mut f = Formatter::new(Cursor::new(&mut buffer));
    same(&rt, names::write(&mut f), [Ok(()); 6], "the outcomes");
    let lines = "Pair { x: 1, y: 2 }Pair { x: 1, y: 2 }\n\
Pair { x: 1, y: 2 }Pair { x: 1, y: 2 }\nHello, world!The answer is 42\n";
    same(&rt, f.into_inner().written(), lines.as_bytes(), "the lines");

    let mut text = String::new(rt.alloc());
    let outcome = uwriteln!(&mut Formatter::new(&mut text), debug forwarded::Y);
    same(&rt, outcome.is_ok(), true, "by a piece");
    same(&rt, text.as_str(), "X\n", "by a piece");
}
