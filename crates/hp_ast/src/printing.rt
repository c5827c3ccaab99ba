//! The text of a problem, put piece by piece at the end of one text.
//! What the text of each part is, is said on the tree alone, in `specs/Printing.antt`: a tree has one text, whether
//! or not a reader would make it.

ghost use Rattle.std.specs.Prelude.{◌≡◌, ◌++◌, codes, IfOk, OnOk, OnErr};
ghost use Rattle.std.specs.Io.{StartsWith};
ghost use Rattle.std.specs.List.{join_by, flat_map};
ghost use Rattle.hp_tree.specs.declared.problem.Decl.TheVariants.{Const, Fun};
ghost use Rattle.hp_ast.specs.Printing.{frac_text, opening, closing, enclosed, encloses_sum, encloses_product, text_at, term_text, relation_text, atom_text, guard_text, head_text, sort_text, var_text, word_text, clause_text, decl_text, line, heading_text, clauses_text, problem_text};

use hp_num::{Frac, Text};
use hp_text::{put_text, put_whole};
use hp_tree::{Atom, Clause, Cmp, Decl, Problem, Sort, Term, Var};
use std::alloc::{AllocError, Global};

/// The text of a problem: the line of its profile, then one line for each declaration and then for each clause, in
/// their order, each line with a line feed behind it.
///
/// An `Err` comes where memory is short.
pub fn print(alloc: Global, problem: &Problem) -> Result<Text, AllocError>
    ensures { IfOk result (λ text. text ≡ problem_text problem.now) }
{
    let mut out = Text::new(alloc);
    put_heading(&mut out, problem)?;
    put_clauses(&mut out, problem.clauses.as_slice())?;
    Ok(out)
}

/// Puts the text of a problem up to its clauses at the end of `out`: the line of its profile, then one line for each declaration.
///
/// An `Err` comes where memory is short, and then `out` begins with what it was, and a part of the lines may stand behind.
pub fn put_heading(out: &mut Text, problem: &Problem) -> Result<(), AllocError>
    ensures put { OnOk result (out.new ≡ out.old ++ heading_text problem.now) }
    ensures kept { OnErr result (StartsWith out.new out.old) }
{
    put_text(out, b"profile ")?;
    put_whole(out, i128::from(problem.profile))?;
    put_text(out, b";\n")?;
    put_decls(out, problem.decls.as_slice())
}

/// Puts clauses at the end of `out`, one line for each.
///
/// An `Err` comes where memory is short, and then `out` begins with what it was, and a part of the lines may stand behind.
pub fn put_clauses(out: &mut Text, clauses: &[Clause]) -> Result<(), AllocError>
    ensures put { OnOk result (out.new ≡ out.old ++ clauses_text clauses.now) }
    ensures kept { OnErr result (StartsWith out.new out.old) }
{
    for clause in clauses {
        put_clause(out, clause)?;
        put_text(out, b"\n")?;
    }
    Ok(())
}

/// Puts a number at the end of `out`: its numerator in decimal digits, with `-` in front of a negative one, and behind
/// a `/` its denominator, unless that is 1.
///
/// An `Err` comes where memory is short, and then `out` begins with what it was, and a part of the number may stand behind.
pub fn put_frac(out: &mut Text, value: Frac) -> Result<(), AllocError>
    ensures put { OnOk result (out.new ≡ out.old ++ frac_text value) }
    ensures kept { OnErr result (StartsWith out.new out.old) }
{
    put_whole(out, value.num())?;
    if value.den() != 1 {
        put_text(out, b"/")?;
        put_whole(out, value.den())?;
    }
    Ok(())
}

/// Puts a term at the end of `out`, as it stands where no parentheses are asked for.
///
/// An `Err` comes where memory is short, and then `out` begins with what it was, and a part of the term may stand behind.
pub fn put_term(out: &mut Text, term: &Term) -> Result<(), AllocError>
    ensures put { OnOk result (out.new ≡ out.old ++ term_text term.now) }
    ensures kept { OnErr result (StartsWith out.new out.old) }
{
    put_at(out, term, Place::Whole)
}

/// Puts an atom at the end of `out`, with one blank on each side of its relation.
///
/// An `Err` comes where memory is short, and then `out` begins with what it was, and a part of the atom may stand behind.
pub fn put_atom(out: &mut Text, atom: &Atom) -> Result<(), AllocError>
    ensures put { OnOk result (out.new ≡ out.old ++ atom_text atom.now) }
    ensures kept { OnErr result (StartsWith out.new out.old) }
{
    put_term(out, &atom.left)?;
    put_text(out, b" ")?;
    put_text(out, relation(atom.cmp))?;
    put_text(out, b" ")?;
    put_term(out, &atom.right)
}

/// Where a term stands: what may stand there without parentheses.
#[derive(Clone, Copy)]
pub enum Place {
    /// Any term: a side of an atom, an argument, the left side of a sum.
    Whole,
    /// All but sums, differences and negations: the right side of a sum, what is negated.
    Operand,
    /// A name, an application or null alone: what is multiplied.
    Factor,
}

impl Place {
    /// Whether a sum, a difference or a negation stands in parentheses here.
    fn encloses_sum(self) -> bool
        ensures { result ≡ encloses_sum self }
    {
        match self {
            Place::Whole => false,
            Place::Operand | Place::Factor => true,
        }
    }

    /// Whether a number or a multiple stands in parentheses here.
    fn encloses_product(self) -> bool
        ensures { result ≡ encloses_product self }
    {
        match self {
            Place::Whole | Place::Operand => false,
            Place::Factor => true,
        }
    }
}

/// Puts a term as it stands at a place.
#[cycle(put)]
fn put_at(out: &mut Text, term: &Term, place: Place) -> Result<(), AllocError>
    ensures put { OnOk result (out.new ≡ out.old ++ text_at term.now place) }
    ensures kept { OnErr result (StartsWith out.new out.old) }
{
    match term {
        Term::Number(value) => put_number(out, *value, place),
        Term::Null => put_text(out, b"null"),
        Term::Name(name) => put_text(out, name.as_slice()),
        Term::Apply { func, args } => {
            put_text(out, func.as_slice())?;
            put_text(out, b"(")?;
            put_arguments(out, args.as_slice())?;
            put_text(out, b")")
        }
        Term::Add(left, right) => {
            put_opening(out, place.encloses_sum())?;
            put_at(out, left.get(), Place::Whole)?;
            put_text(out, b" + ")?;
            put_at(out, right.get(), Place::Operand)?;
            put_closing(out, place.encloses_sum())
        }
        Term::Sub(left, right) => {
            put_opening(out, place.encloses_sum())?;
            put_at(out, left.get(), Place::Whole)?;
            put_text(out, b" - ")?;
            put_at(out, right.get(), Place::Operand)?;
            put_closing(out, place.encloses_sum())
        }
        Term::Neg(inner) => {
            put_opening(out, place.encloses_sum())?;
            put_text(out, b"-")?;
            put_at(out, inner.get(), Place::Operand)?;
            put_closing(out, place.encloses_sum())
        }
        Term::Scale(value, inner) => {
            put_opening(out, place.encloses_product())?;
            put_frac(out, *value)?;
            put_text(out, b" * ")?;
            put_at(out, inner.get(), Place::Factor)?;
            put_closing(out, place.encloses_product())
        }
    }
}

/// Puts arguments with commas between them.
#[cycle(put)]
fn put_arguments(out: &mut Text, terms: &[Term]) -> Result<(), AllocError>
    ensures put { OnOk result (out.new ≡ out.old ++ join_by term_text (codes ", ") terms.now) }
    ensures kept { OnErr result (StartsWith out.new out.old) }
{
    for (i, term) in terms.iter().enumerate() {
        if i > 0 {
            put_text(out, b", ")?;
        }
        put_at(out, term, Place::Whole)?;
    }
    Ok(())
}

/// Puts a number that is a term of its own.
fn put_number(out: &mut Text, value: Frac, place: Place) -> Result<(), AllocError>
    ensures put { OnOk result (out.new ≡ out.old ++ enclosed (encloses_product place) (frac_text value)) }
    ensures kept { OnErr result (StartsWith out.new out.old) }
{
    put_opening(out, place.encloses_product())?;
    put_frac(out, value)?;
    put_closing(out, place.encloses_product())
}

/// Puts `(` where parentheses are asked for.
fn put_opening(out: &mut Text, asked: bool) -> Result<(), AllocError>
    ensures put { OnOk result (out.new ≡ out.old ++ opening asked) }
    ensures kept { OnErr result (StartsWith out.new out.old) }
{
    if asked { put_text(out, b"(") } else { Ok(()) }
}

/// Puts `)` where parentheses are asked for.
fn put_closing(out: &mut Text, asked: bool) -> Result<(), AllocError>
    ensures put { OnOk result (out.new ≡ out.old ++ closing asked) }
    ensures kept { OnErr result (StartsWith out.new out.old) }
{
    if asked { put_text(out, b")") } else { Ok(()) }
}

/// Puts the declarations, each on a line.
fn put_decls(out: &mut Text, decls: &[Decl]) -> Result<(), AllocError>
    ensures put { OnOk result (out.new ≡ out.old ++ flat_map (λ decl. line (decl_text decl)) decls.now) }
    ensures kept { OnErr result (StartsWith out.new out.old) }
{
    for decl in decls {
        put_decl(out, decl)?;
        put_text(out, b"\n")?;
    }
    Ok(())
}

/// Puts a declaration up to its semicolon.
fn put_decl(out: &mut Text, decl: &Decl) -> Result<(), AllocError>
    ensures put { OnOk result (out.new ≡ out.old ++ decl_text decl.now) }
    ensures kept { OnErr result (StartsWith out.new out.old) }
{
    match decl {
        Decl::Const { name, sort } => put_const(out, name, *sort),
        Decl::Fun {
            name,
            args,
            result,
            level,
        } => put_fun(out, name, args.as_slice(), *result, *level),
    }
}

/// Puts the declaration of a constant up to its semicolon.
fn put_const(out: &mut Text, name: &Text, sort: Sort) -> Result<(), AllocError>
    ensures put { OnOk result (out.new ≡ out.old ++ decl_text (Const name.now sort)) }
    ensures kept { OnErr result (StartsWith out.new out.old) }
{
    put_text(out, b"const ")?;
    put_text(out, name.as_slice())?;
    put_text(out, b": ")?;
    put_text(out, sort_name(sort))?;
    put_text(out, b";")
}

/// Puts the declaration of a function up to its semicolon.
fn put_fun(
    out: &mut Text,
    name: &Text,
    args: &[Sort],
    value: Sort,
    level: u64,
) -> Result<(), AllocError>
    ensures put { OnOk result (out.new ≡ out.old ++ decl_text (Fun name.now args.now value level)) }
    ensures kept { OnErr result (StartsWith out.new out.old) }
{
    put_text(out, b"fun ")?;
    put_text(out, name.as_slice())?;
    put_text(out, b"(")?;
    put_sorts(out, args)?;
    put_text(out, b"): ")?;
    put_text(out, sort_name(value))?;
    put_text(out, b" level ")?;
    put_whole(out, i128::from(level))?;
    put_text(out, b";")
}

/// Puts sorts with commas between them.
fn put_sorts(out: &mut Text, sorts: &[Sort]) -> Result<(), AllocError>
    ensures put { OnOk result (out.new ≡ out.old ++ join_by sort_text (codes ", ") sorts.now) }
    ensures kept { OnErr result (StartsWith out.new out.old) }
{
    for (i, sort) in sorts.iter().enumerate() {
        if i > 0 {
            put_text(out, b", ")?;
        }
        put_text(out, sort_name(*sort))?;
    }
    Ok(())
}

/// Puts a clause up to its semicolon.
fn put_clause(out: &mut Text, clause: &Clause) -> Result<(), AllocError>
    ensures put { OnOk result (out.new ≡ out.old ++ clause_text clause.now) }
    ensures kept { OnErr result (StartsWith out.new out.old) }
{
    put_word(out, clause.query, clause.vars.as_slice())?;
    put_guard(out, clause.guard.as_slice())?;
    put_head(out, clause.head.as_slice())?;
    put_text(out, b";")
}

/// Puts the word of a clause, with its variables unless it is a query.
fn put_word(out: &mut Text, query: bool, vars: &[Var]) -> Result<(), AllocError>
    ensures put { OnOk result (out.new ≡ out.old ++ word_text query vars.now) }
    ensures kept { OnErr result (StartsWith out.new out.old) }
{
    if query {
        return put_text(out, b"query ");
    }
    put_text(out, b"clause [")?;
    put_vars(out, vars)?;
    put_text(out, b"] ")
}

/// Puts variables with commas between them.
fn put_vars(out: &mut Text, vars: &[Var]) -> Result<(), AllocError>
    ensures put { OnOk result (out.new ≡ out.old ++ join_by var_text (codes ", ") vars.now) }
    ensures kept { OnErr result (StartsWith out.new out.old) }
{
    for (i, var) in vars.iter().enumerate() {
        if i > 0 {
            put_text(out, b", ")?;
        }
        put_var(out, var)?;
    }
    Ok(())
}

/// Puts a variable with its sort.
fn put_var(out: &mut Text, var: &Var) -> Result<(), AllocError>
    ensures put { OnOk result (out.new ≡ out.old ++ var_text var.now) }
    ensures kept { OnErr result (StartsWith out.new out.old) }
{
    put_text(out, var.name.as_slice())?;
    put_text(out, b":")?;
    put_text(out, sort_name(var.sort))
}

/// Puts a guard and its arrow, or nothing where there is no atom.
fn put_guard(out: &mut Text, guard: &[Atom]) -> Result<(), AllocError>
    ensures put { OnOk result (out.new ≡ out.old ++ guard_text guard.now) }
    ensures kept { OnErr result (StartsWith out.new out.old) }
{
    if guard.is_empty() {
        return Ok(());
    }
    put_atoms(out, guard, b" & ")?;
    put_text(out, b" -> ")
}

/// Puts a head, which is `false` where there is no atom.
fn put_head(out: &mut Text, head: &[Atom]) -> Result<(), AllocError>
    ensures put { OnOk result (out.new ≡ out.old ++ head_text head.now) }
    ensures kept { OnErr result (StartsWith out.new out.old) }
{
    if head.is_empty() {
        return put_text(out, b"false");
    }
    put_atoms(out, head, b" | ")
}

/// Puts atoms with a separator between each two.
fn put_atoms(out: &mut Text, atoms: &[Atom], separator: &[u8]) -> Result<(), AllocError>
    ensures put { OnOk result (out.new ≡ out.old ++ join_by atom_text separator.now atoms.now) }
    ensures kept { OnErr result (StartsWith out.new out.old) }
{
    for (i, atom) in atoms.iter().enumerate() {
        if i > 0 {
            put_text(out, separator)?;
        }
        put_atom(out, atom)?;
    }
    Ok(())
}

/// The sign of a relation.
fn relation(cmp: Cmp) -> &'static [u8]
    ensures { result.now ≡ relation_text cmp }
{
    match cmp {
        Cmp::Le => b"<=",
        Cmp::Lt => b"<",
        Cmp::Eq => b"=",
        Cmp::Ne => b"!=",
        Cmp::Ge => b">=",
        Cmp::Gt => b">",
    }
}

/// The word of a sort.
fn sort_name(sort: Sort) -> &'static [u8]
    ensures { result.now ≡ sort_text sort }
{
    match sort {
        Sort::Num => b"num",
        Sort::Idx => b"idx",
        Sort::Ptr => b"ptr",
    }
}
