//! Tests of values that are one piece in both modes, and of quoted texts, whose escapes are pieces.
use super::asserts::{has_wanted_rows, same};
use std::alloc::{AllocError, Global};
use test_rows::printed::Displayed;
use test_rows::put_rows;
use test_rows::rows::{Table, repeated};

// Each escape is a piece, and so is each stretch between escapes.
#[test]
fn each_escape_of_a_quoted_leaf_is_a_piece(rt: HostRuntime) {
    let mut table = Table::new(rt.alloc());
    put_rows!(table;
        pieces(&"") => "\"|\"|";
        pieces(&"a\"é b\n") => "\"|a|\\\"|é b|\\n|\"|";
        pieces(&"\n\n") => "\"|\\n|\\n|\"|";
        pieces(&"\u{1b}") => "\"|\\u{1b}|\"|";
        pieces(&"a\u{1b}\u{7f}é\u{1}") => "\"|a|\\u{1b}|\\u{7f}|é|\\u{1}|\"|";
        pieces_of_made(String::from_str(rt.alloc(), "\0\t\n\r\\'")) => "\"|\\0|\\t|\\n|\\r|\\\\|'|\"|";
    );
    put_rows!(table;
        pieces(&'é') => "'|é|'|";
        pieces(&'🦀') => "'|🦀|'|";
        pieces(&'\'') => r#"'|\'|'|"#;
        pieces(&'"') => r#"'|"|'|"#;
        pieces(&'\n') => r#"'|\n|'|"#;
        pieces(&'\u{1b}') => r#"'|\u{1b}|'|"#;
    );
    has_wanted_rows(&rt, &table);
}

// Whether a text of this length is one piece by both traits.
fn is_one_piece(alloc: Global, length: usize) -> Result<bool, AllocError> {
    let text = repeated(alloc, "", "x", length, "")?;
    let mut table = Table::new(alloc);
    table.pieces(&text.as_str());
    table.pieces(&Displayed(text.as_str()));
    let wanted = format!(in alloc; "\"|{text}|\"|;\n{text}|;\n")?;
    Ok(table.text() == Some(wanted.as_str()))
}

#[test]
fn a_long_text_is_one_piece(rt: HostRuntime) {
    for length in [64, 65, 255, 256, 300] {
        let given = is_one_piece(rt.alloc(), length);
        same(&rt, (length, given), (length, Ok(true)), "a long text");
    }
}

#[test]
fn leaves_and_references_to_them_print_as_one_piece(rt: HostRuntime) {
    let mut table = Table::new(rt.alloc());
    put_rows!(table;
        pieces(&true) => "true|";
        pieces(&false) => "false|";
        pieces(&()) => "()|";
        pieces(&None::<i32>) => "None|";
    );
    let mut number = 2u8;
    put_rows!(table;
        pieces(&&1i32) => "1|";
        pieces(&&mut number) => "2|";
        pieces(&Displayed(&1i32)) => "1|";
        pieces(&Displayed(&mut number)) => "2|";
        pieces_of_made(Box::new(rt.alloc(), 3u64)) => "3|";
        pieces_of_made(Box::new(rt.alloc(), 4u64).map(Displayed)) => "4|";
        pieces(&Displayed(true)) => "true|";
        pieces(&Displayed(false)) => "false|";
        pieces(&Displayed("a text")) => "a text|";
        pieces(&Displayed("")) => "|";
        pieces(&Displayed(String::new(rt.alloc()))) => "|";
        pieces_of_made(String::from_str(rt.alloc(), "a text").map(Displayed)) => "a text|";
        pieces(&Displayed('é')) => "é|";
        pieces(&Displayed('🦀')) => "🦀|";
    );
    has_wanted_rows(&rt, &table);
}
