//! The texts of lines and definitions of a ground problem, as they stand behind their numbers.
//! What each text is, is said on the data alone, in `specs/Lines.antt`.

ghost use Rattle.std.specs.Prelude.{◌≡◌, ◌++◌, ◌+◌, ◌-◌, ◌<◌, ◌≤◌, length, IfOk, OnOk};
ghost use Rattle.hp_defs.specs.Names.{sorts};
ghost use Rattle.hp_leaf.specs.Tree.{IsLine};
ghost use Rattle.hp_cert.specs.Lines.{body_text, def_text, line_text, origin_text};
ghost use Rattle.hp_cert.specs.Named.{AreNamed, BodyIsNamed};

use crate::forms::{put_args, put_lin, put_name};
use crate::literals::put_lits;
use hp_defs::{Ground, Names};
use hp_lit::{Body, Name, Origin};
use hp_num::Text;
use hp_text::{put_text, put_whole};
use std::alloc::{AllocError, Global};

/// The text of the line with this number, from 1 to the count of lines: where it comes from, and its literals. It is
/// what stands behind `line N ` where the line is listed. An `Err` comes where memory is short.
pub fn line_text(alloc: Global, g: &Ground, line: u32) -> Result<Text, AllocError>
    requires { IsLine g.now.lines line }
    ensures { IfOk result (λ text. text ≡ line_text g.now line) }
{
    let line = g.lines.get(line as usize - 1);
    let mut out = Text::new(alloc);
    put_origin(&mut out, &g.names, &line.origin)?;
    put_text(&mut out, b": ")?;
    put_lits(&mut out, &g.names, line.lits.as_slice())?;
    Ok(out)
}

/// The text of what a definition stands for: an application or a sum. It is what stands behind `def _N = ` where the
/// definition is listed. The name is not that of a constant. An `Err` comes where memory is short.
pub fn def_text(alloc: Global, g: &Ground, name: Name) -> Result<Text, AllocError>
    requires named { AreNamed g.now.names }
    requires made { length g.now.names.constants ≤ name.0 }
    requires name { name.0 < length (sorts g.now.names) }
    ensures { IfOk result (λ text. text ≡ def_text g.now.names (name.0 - length g.now.names.constants + 1)) }
{
    let at = name.0 as usize - g.names.constants().len();
    body_text(alloc, &g.names, &g.names.definitions()[at].body)
}

/// The text of what a definition stands for.
pub fn body_text(alloc: Global, names: &Names, body: &Body) -> Result<Text, AllocError>
    requires { BodyIsNamed names.now body.now }
    ensures { IfOk result (λ text. text ≡ body_text names.now body.now) }
{
    let mut out = Text::new(alloc);
    match body {
        Body::Apply { func, args } => {
            put_text(&mut out, names.signature(*func).name.as_slice())?;
            put_text(&mut out, b"(")?;
            put_args(&mut out, names, args.as_slice())?;
            put_text(&mut out, b")")?;
        }
        Body::Sum(lin) => put_lin(&mut out, names, lin)?,
    }
    Ok(out)
}

/// Puts where a line comes from at the end of `out`, of which a part may be there where memory is short.
fn put_origin(out: &mut Text, names: &Names, origin: &Origin) -> Result<(), AllocError>
    ensures { OnOk result (out.new ≡ out.old ++ origin_text names.now origin.now) }
{
    match origin {
        Origin::Ground { clause } => {
            put_text(out, b"clause ")?;
            put_whole(out, i128::from(*clause))
        }
        Origin::At { clause, tuple } => {
            put_text(out, b"clause ")?;
            put_whole(out, i128::from(*clause))?;
            put_text(out, b" at ")?;
            put_args(out, names, tuple.as_slice())
        }
        Origin::Equal { left, right } => {
            put_text(out, b"equal ")?;
            put_name(out, names, *left)?;
            put_text(out, b", ")?;
            put_name(out, names, *right)
        }
        Origin::SumOf { name } => {
            put_text(out, b"sum ")?;
            put_name(out, names, *name)
        }
    }
}
