use c_lexer::{Kind, Punct, Word};
use c_print::print_tree;
use c_tree::{Declarator, External, Item, Name, Program, Specifier};
use rr_base::{List, Position};
use std::alloc::AllocError;

#[test]
fn prints_an_object(rt: HostRuntime) -> Result<(), AllocError> {
    let alloc = rt.alloc();
    let start = Position { line: 1, column: 1 };
    let name = Name {
        text: List::from_slice(alloc, b"x")?,
        at: Position { line: 1, column: 5 },
    };
    let mut items = List::new(alloc);
    items.push(Item::Plain(Declarator::Object {
        stars: 1,
        name,
        lengths: List::new(alloc),
    }))?;
    let mut externals = List::new(alloc);
    externals.push(External::Objects {
        is_static: false,
        specifier: Specifier::Int { at: start },
        items,
        at: start,
    })?;
    let kinds = print_tree(alloc, &Program { externals })?;
    assert!(rt;
        matches!(
            kinds.as_slice(),
            [
                Kind::Word(Word::Int),
                Kind::Punct(Punct::Star),
                Kind::Name(_),
                Kind::Punct(Punct::Semicolon)
            ]
        )
    );
    Ok(())
}
