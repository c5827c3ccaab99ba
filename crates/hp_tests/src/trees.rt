//! Trees that are read, copied, printed and looked through for names.

use hp_ast::print;
use hp_num::Text;
use hp_read::read;
use hp_sorts::check;
use std::test::Fail;

const TEXT: &[u8] =
    b"profile 1;\nconst c: num;\nconst d: num;\nfun f(num, idx): ptr level 7;\nclause [x:num, i:idx] x < c & i >= 0 -> f(x, i) = null | f(-2 * (c - 1/2) + d, i - 1) != f(x, 3);\nclause [] false;\nquery 1 < 2;\n";

#[test]
fn a_problem_and_its_copy_have_the_text(rt: HostRuntime) -> Result<(), Fail> {
    let problem = read(rt.alloc(), TEXT)?;
    let copy = problem.copy(rt.alloc())?;
    assert_eq!(rt; print(rt.alloc(), &problem)?.as_slice(), TEXT);
    assert_eq!(rt; print(rt.alloc(), &copy)?.as_slice(), TEXT);
    Ok(())
}

#[test]
fn names_have_their_places(rt: HostRuntime) -> Result<(), Fail> {
    let problem = read(rt.alloc(), TEXT)?;
    if problem.decls.len() > 3 || problem.clauses.len() > 3 {
        assert!(rt; false);
        return Ok(());
    }
    let symbols = check(rt.alloc(), &problem)?;
    let d = Text::from_slice(rt.alloc(), b"d")?;
    let f = Text::from_slice(rt.alloc(), b"f")?;
    assert_eq!(rt;
        (symbols.constant(&d), symbols.function(&d)),
        (Some(1), None)
    );
    assert_eq!(rt;
        (symbols.constant(&f), symbols.function(&f)),
        (None, Some(0))
    );
    Ok(())
}
