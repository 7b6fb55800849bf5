//! The walk over the phrases of a function, in the order of its tree.

ghost use Rattle.std.specs.Prelude.{◌≡◌, [], ◌∷◌, take, drop, length, Some, None, IfOk, OnOk};
ghost use Rattle.check_rules.specs.Accepted.{bound_after, bound_behind, is_fold as is_fold_tree, index_targets, no_names, target_names, with_names};
ghost use Rattle.check_rules.specs.Accepted.{bind as bind_name, base_of as base_known};
ghost use Rattle.check_rules.specs.First.{earlier as earlier_of, unless as unless_holds};
ghost use Rattle.check_rules.specs.declared.code.CheckCode.TheVariants.{C4};
ghost use Rattle.sac_ast.specs.Bases.{are_int as int_bases, agree as all_agree, literal_base as base_of_literal, may_be as is_base};
ghost use Rattle.sac_ast.specs.Bases.{operand_base as base_of_operand, operands_fit as are_operands, builtin_base as base_of_builtin};
ghost use Rattle.sac_base.specs.declared.base.Base.TheVariants.{Int};
ghost use Rattle.sac_base.specs.Operators.{result_base as base_of_result};
ghost use Rattle.sac_ast.specs.Tree;
ghost use Rattle.sac_ast.specs.View;
ghost use Rattle.check_rules.specs.Places.{place};
ghost use Rattle.check_rules.specs.Tables.{among, entered, has, with_common};
ghost use Rattle.check_rules.specs.Walk.{builtin_rules as rules_of_builtin, cell_rules as rules_of_cells, in_targets, in_index_names};
ghost use Rattle.check_rules.specs.Walk.{repeated_targets as targets_repeated};
ghost use Rattle.check_walk.specs.Found.{found_base};
ghost use Rattle.check_rules.specs.Walk.{in_value, in_values, in_maybe, in_bound, in_generators, in_operation, in_statement, in_block, in_limits};
ghost use Rattle.check_rules.specs.Walk.{in_inside, in_branches, in_generator, bound_by_both, choice_first, choice_found, condition_first};
ghost use Rattle.check_rules.specs.Walk.{replaced_first};

use check_rules::bound::Bound;
use check_rules::calls::{Place, call_results};
use check_rules::code::CheckCode;
use check_rules::judged::{Cell, Judged, JudgedAll, JudgedCell, JudgedCells, Limits, judge};
use check_rules::names::{base_of, bind};
use check_rules::targets::{
    bind_index_names, bind_targets, index_parts, push_targets, repeated_targets,
};
use check_rules::uses::{builtin_rules, cell_rules, first_cell, several_targets, use_rules};
use check_rules::violation::{Violation, earlier, unless};
use indexmap::{IndexMap, IndexSet};
use sac_ast::{
    Bound as BoundTree, Builtin, Expression, Generator, Index, Operation, Statement, Target, agree,
    builtin_base, choice_base, first_base, literal_base, may_be, may_match, operand_base,
    operands_fit,
};
use sac_base::{Base, Memory, Name, Op, Site, result_base};
use std::alloc::Global;

type Known<'a> = IndexMap<&'a str, Option<Base>>;

/// An expression that stands as one value.
#[cycle(walk)]
pub fn expression<'a>(
    e: &'a Expression,
    here: &Place<'a>,
    bound: &mut Bound<'a>,
    known: &mut Known<'a>,
) -> Result<Judged, Memory>
    ensures first { IfOk result (λ r. r.first ≡ (in_value (place here.now) (View.expr e.now) (among bound.old.trail.items) (entered known.old)).first) }
    ensures base { IfOk result (λ r. r.base ≡ (in_value (place here.now) (View.expr e.now) (among bound.old.trail.items) (entered known.old)).base) }
    ensures known { OnOk result (entered known.new ≡ (in_value (place here.now) (View.expr e.now) (among bound.old.trail.items) (entered known.old)).known) }
    ensures kept { OnOk result (bound.new.trail.items ≡ bound.old.trail.items) }
{
    match e {
        Expression::Number(_, _) => Ok(judge(None, None, Some(Base::Int))),
        Expression::Truth(_, _) => Ok(judge(None, None, Some(Base::Bool))),
        Expression::Variable(name, site) => {
            let own = use_rules(here, name, *site, bound);
            Ok(judge(own, None, base_of(known, name)))
        }
        Expression::Literal(es, site) => {
            let elements = expressions(es, here, bound, known)?;
            Ok(literal(elements, *site))
        }
        Expression::Unary(op, e, site) => {
            let operand = expression(e, here, bound, known)?;
            Ok(unary(*op, operand, *site))
        }
        Expression::Binary(op, e, f, site) => {
            let left = expression(e, here, bound, known)?;
            let right = expression(f, here, bound, known)?;
            Ok(binary(*op, left, right, *site))
        }
        Expression::Choice(c, e, f, site) => {
            let test = expression(c, here, bound, known)?;
            let first = expression(e, here, bound, known)?;
            let second = expression(f, here, bound, known)?;
            Ok(choice(test, first, second, *site))
        }
        Expression::Select(e, i, site) => {
            let array = expression(e, here, bound, known)?;
            let index = expression(i, here, bound, known)?;
            Ok(selection(array, index, *site))
        }
        Expression::Call(name, es, site) => {
            let args = expressions(es, here, bound, known)?;
            let results = call_results(here, name, &args, 1, *site)?;
            Ok(Judged {
                first: results.first,
                base: first_base(&results.bases),
            })
        }
        Expression::Builtin(builtin, es, site) => {
            let args = expressions(es, here, bound, known)?;
            Ok(built_in(*builtin, args, *site))
        }
        Expression::With(gs, op, _) => {
            let loops = generators(gs, is_fold(op), here, bound, known)?;
            let cells = operation(op, first_cell(&loops.cells), here, bound, known)?;
            Ok(with_loop(loops, cells))
        }
    }
}

// An array of elements, which have one base.
fn literal(elements: JudgedAll, site: Site) -> Judged
    ensures first { result.first ≡ earlier_of (unless_holds (all_agree elements.bases.items) C4 site) elements.first }
    ensures base { result.base
        ≡ found_base (unless_holds (all_agree elements.bases.items) C4 site) elements.first (base_of_literal elements.bases.items) }
{
    let own = unless(agree(&elements.bases), CheckCode::C4, site);
    judge(own, elements.first, literal_base(&elements.bases))
}

// An operator's value by those of its operands, which have the bases that it takes.
fn unary(op: Op, operand: Judged, site: Site) -> Judged
    ensures first { result.first ≡ earlier_of (unless_holds (is_base (base_of_operand op) operand.base) C4 site) operand.first }
    ensures base { result.base
        ≡ found_base (unless_holds (is_base (base_of_operand op) operand.base) C4 site) operand.first (Some (base_of_result op)) }
{
    let fits = may_be(operand_base(op), operand.base);
    let own = unless(fits, CheckCode::C4, site);
    judge(own, operand.first, Some(result_base(op)))
}

fn binary(op: Op, left: Judged, right: Judged, site: Site) -> Judged
    ensures first { result.first
        ≡ earlier_of (unless_holds (are_operands op left.base right.base) C4 site) (earlier_of left.first right.first) }
    ensures base { result.base
        ≡ found_base (unless_holds (are_operands op left.base right.base) C4 site) (earlier_of left.first right.first) (Some (base_of_result op)) }
{
    let fits = operands_fit(op, left.base, right.base);
    let own = unless(fits, CheckCode::C4, site);
    let inside = earlier(left.first, right.first);
    judge(own, inside, Some(result_base(op)))
}

// A selection from an array, whose index is int.
fn selection(array: Judged, index: Judged, site: Site) -> Judged
    ensures first { result.first ≡ earlier_of (unless_holds (is_base Int index.base) C4 site) (earlier_of array.first index.first) }
    ensures base { result.base
        ≡ found_base (unless_holds (is_base Int index.base) C4 site) (earlier_of array.first index.first) array.base }
{
    let own = unless(may_be(Base::Int, index.base), CheckCode::C4, site);
    judge(own, earlier(array.first, index.first), array.base)
}

// A built-in function's value by its arguments.
fn built_in(builtin: Builtin, args: JudgedAll, site: Site) -> Judged
    ensures first { result.first ≡ earlier_of (rules_of_builtin builtin args.bases.items site) args.first }
    ensures base { result.base
        ≡ found_base (rules_of_builtin builtin args.bases.items site) args.first (base_of_builtin builtin args.bases.items) }
{
    let own = builtin_rules(builtin, &args.bases, site);
    judge(own, args.first, builtin_base(builtin, &args.bases))
}

// A with-loop by its generators and its operation, whose base the cells have.
fn with_loop(loops: JudgedCells, cells: Judged) -> Judged
    ensures first { result.first ≡ earlier_of (rules_of_cells cells.base loops.cells.items) (earlier_of loops.first cells.first) }
    ensures base { result.base
        ≡ found_base (rules_of_cells cells.base loops.cells.items) (earlier_of loops.first cells.first) cells.base }
{
    let own = cell_rules(cells.base, &loops.cells);
    judge(own, earlier(loops.first, cells.first), cells.base)
}

// A conditional expression, by its parts.
fn choice(test: Judged, first: Judged, second: Judged, site: Site) -> Judged
    ensures first { result.first ≡ choice_first test.first test.base first.first first.base second.first second.base site }
    ensures base { result.base ≡ choice_found test.first test.base first.first first.base second.first second.base site }
{
    let fits = may_be(Base::Bool, test.base) && may_match(first.base, second.base);
    let own = unless(fits, CheckCode::C4, site);
    let inside = earlier(earlier(test.first, first.first), second.first);
    judge(own, inside, choice_base(first.base, second.base))
}

fn is_fold(op: &Operation) -> bool
    ensures { result ≡ is_fold_tree (View.operation op.now) }
{
    match op {
        Operation::Fold { .. } => true,
        _ => false,
    }
}

/// Expressions, each of which stands as one value.
#[cycle(walk)]
pub fn expressions<'a>(
    es: &'a [Expression],
    here: &Place<'a>,
    bound: &mut Bound<'a>,
    known: &mut Known<'a>,
) -> Result<JudgedAll, Memory>
    ensures first { IfOk result (λ r. r.first ≡ (in_values (place here.now) (View.exprs es.now) (among bound.old.trail.items) (entered known.old)).first) }
    ensures bases { IfOk result (λ r. r.bases.items
        ≡ (in_values (place here.now) (View.exprs es.now) (among bound.old.trail.items) (entered known.old)).bases) }
    ensures known { OnOk result (entered known.new ≡ (in_values (place here.now) (View.exprs es.now) (among bound.old.trail.items) (entered known.old)).known) }
    ensures kept { OnOk result (bound.new.trail.items ≡ bound.old.trail.items) }
{
    let mut first = None;
    let mut bases = Vec::new(here.alloc);
    for e in es {
        let one = expression(e, here, bound, known)?;
        first = earlier(first, one.first);
        bases.push(one.base)?;
    }
    Ok(JudgedAll { first, bases })
}

// A value that may be left out, and then has another base.
#[cycle(walk)]
fn optional<'a>(
    e: &'a Option<Expression>,
    other: Option<Base>,
    here: &Place<'a>,
    bound: &mut Bound<'a>,
    known: &mut Known<'a>,
) -> Result<Judged, Memory>
    ensures first { IfOk result (λ r. r.first ≡ (in_maybe (place here.now) (View.maybe e.now) other (among bound.old.trail.items) (entered known.old)).first) }
    ensures base { IfOk result (λ r. r.base ≡ (in_maybe (place here.now) (View.maybe e.now) other (among bound.old.trail.items) (entered known.old)).base) }
    ensures known { OnOk result (entered known.new
        ≡ (in_maybe (place here.now) (View.maybe e.now) other (among bound.old.trail.items) (entered known.old)).known) }
    ensures kept { OnOk result (bound.new.trail.items ≡ bound.old.trail.items) }
{
    match e {
        None => Ok(judge(None, None, other)),
        Some(e) => expression(e, here, bound, known),
    }
}

// A bound, where a dot is no bound of a fold.
#[cycle(walk)]
fn limit<'a>(
    b: &'a BoundTree,
    folds: bool,
    here: &Place<'a>,
    bound: &mut Bound<'a>,
    known: &mut Known<'a>,
) -> Result<Judged, Memory>
    ensures first { IfOk result (λ r. r.first ≡ (in_bound (place here.now) (View.bound b.now) folds (among bound.old.trail.items) (entered known.old)).first) }
    ensures base { IfOk result (λ r. r.base ≡ (in_bound (place here.now) (View.bound b.now) folds (among bound.old.trail.items) (entered known.old)).base) }
    ensures known { OnOk result (entered known.new
        ≡ (in_bound (place here.now) (View.bound b.now) folds (among bound.old.trail.items) (entered known.old)).known) }
    ensures kept { OnOk result (bound.new.trail.items ≡ bound.old.trail.items) }
{
    match b {
        BoundTree::Dot(site) => {
            let own = unless(!folds, CheckCode::C10, *site);
            Ok(judge(own, None, Some(Base::Int)))
        }
        BoundTree::Given(e) => expression(e, here, bound, known),
    }
}

// A generator's bounds, index, step and width, which see what is bound before the with-loop.
#[cycle(walk)]
fn limits<'a>(
    g: &'a Generator,
    folds: bool,
    here: &Place<'a>,
    bound: &mut Bound<'a>,
    known: &mut Known<'a>,
) -> Result<Limits, Memory>
    ensures first { IfOk result (λ r. r.first ≡ (in_limits (place here.now) g.now folds (among bound.old.trail.items) (entered known.old)).first) }
    ensures fits { IfOk result (λ r. r.fits ≡ (in_limits (place here.now) g.now folds (among bound.old.trail.items) (entered known.old)).fits) }
    ensures known { OnOk result (entered known.new ≡ (in_limits (place here.now) g.now folds (among bound.old.trail.items) (entered known.old)).known) }
    ensures kept { OnOk result (bound.new.trail.items ≡ bound.old.trail.items) }
{
    let least = limit(&g.lower, folds, here, bound, known)?;
    let indices = bind_index(&g.index, here.alloc, known)?;
    let most = limit(&g.upper, folds, here, bound, known)?;
    let steps = optional(&g.step, Some(Base::Int), here, bound, known)?;
    let widths = optional(&g.width, Some(Base::Int), here, bound, known)?;
    Ok(limits_found(least, indices, most, steps, widths))
}

// Binds the names of an index, of which no two are alike.
fn bind_index<'a>(
    index: &'a Index,
    alloc: Global,
    known: &mut Known<'a>,
) -> Result<Option<Violation>, Memory>
    ensures first { IfOk result (λ r. r ≡ earlier_of (targets_repeated no_names (index_targets (View.index_view index.now)))
        (in_index_names (index_targets (View.index_view index.now)) (entered known.old)).first) }
    ensures known { OnOk result (entered known.new ≡ (in_index_names (index_targets (View.index_view index.now)) (entered known.old)).known) }
{
    let targets = index_parts(index);
    let twice = repeated_targets(targets, alloc)?;
    let indices = bind_index_names(targets, known)?;
    Ok(earlier(twice, indices))
}

// A generator's bounds, index, step and width, by what is found in each.
fn limits_found(
    least: Judged,
    indices: Option<Violation>,
    most: Judged,
    steps: Judged,
    widths: Judged,
) -> Limits
    ensures first { result.first
        ≡ earlier_of (earlier_of (earlier_of (earlier_of least.first indices) most.first) steps.first) widths.first }
    ensures fits { result.fits ≡ int_bases least.base most.base steps.base widths.base }
{
    let first = earlier(earlier(least.first, indices), most.first);
    Limits {
        first: earlier(earlier(first, steps.first), widths.first),
        fits: are_int(least.base, most.base, steps.base, widths.base),
    }
}

fn are_int(least: Option<Base>, most: Option<Base>, step: Option<Base>, width: Option<Base>) -> bool
    ensures { result ≡ int_bases least most step width }
{
    may_be(Base::Int, least)
        && may_be(Base::Int, most)
        && may_be(Base::Int, step)
        && may_be(Base::Int, width)
}

// A generator's block and cell, which see the index names as well.
#[cycle(walk)]
fn inside<'a>(
    g: &'a Generator,
    here: &Place<'a>,
    bound: &mut Bound<'a>,
    known: &mut Known<'a>,
) -> Result<Judged, Memory>
    ensures first { IfOk result (λ r. r.first ≡ (in_inside (place here.now) g.now (among bound.old.trail.items) (entered known.old)).first) }
    ensures base { IfOk result (λ r. r.base ≡ (in_inside (place here.now) g.now (among bound.old.trail.items) (entered known.old)).base) }
    ensures known { OnOk result (entered known.new ≡ (in_inside (place here.now) g.now (among bound.old.trail.items) (entered known.old)).known) }
    ensures kept { OnOk result (bound.new.trail.items ≡ bound.old.trail.items) }
{
    let mark = bound.mark();
    push_targets(index_parts(&g.index), bound)?;
    let body = block(&g.body, here, bound, known)?;
    let cell = expression(&g.cell, here, bound, known)?;
    bound.leave(mark);
    Ok(Judged {
        first: earlier(body, cell.first),
        base: cell.base,
    })
}

#[cycle(walk)]
fn generator<'a>(
    g: &'a Generator,
    folds: bool,
    here: &Place<'a>,
    bound: &mut Bound<'a>,
    known: &mut Known<'a>,
) -> Result<JudgedCell, Memory>
    ensures first { IfOk result (λ r. r.first
        ≡ (in_generator (place here.now) (View.generator g.now) folds (among bound.old.trail.items) (entered known.old)).first) }
    ensures cell { IfOk result (λ r. (r.cell ∷ [])
        ≡ (in_generator (place here.now) (View.generator g.now) folds (among bound.old.trail.items) (entered known.old)).cells) }
    ensures known { OnOk result (entered known.new
        ≡ (in_generator (place here.now) (View.generator g.now) folds (among bound.old.trail.items) (entered known.old)).known) }
    ensures kept { OnOk result (bound.new.trail.items ≡ bound.old.trail.items) }
{
    let outside = limits(g, folds, here, bound, known)?;
    let within = inside(g, here, bound, known)?;
    let cell = Cell {
        fits: outside.fits,
        base: within.base,
        site: g.site,
    };
    Ok(JudgedCell {
        first: earlier(outside.first, within.first),
        cell,
    })
}

#[cycle(walk)]
fn generators<'a>(
    gs: &'a [Generator],
    folds: bool,
    here: &Place<'a>,
    bound: &mut Bound<'a>,
    known: &mut Known<'a>,
) -> Result<JudgedCells, Memory>
    ensures first { IfOk result (λ r. r.first
        ≡ (in_generators (place here.now) (View.generators gs.now) folds (among bound.old.trail.items) (entered known.old)).first) }
    ensures cells { IfOk result (λ r. r.cells.items
        ≡ (in_generators (place here.now) (View.generators gs.now) folds (among bound.old.trail.items) (entered known.old)).cells) }
    ensures known { OnOk result (entered known.new
        ≡ (in_generators (place here.now) (View.generators gs.now) folds (among bound.old.trail.items) (entered known.old)).known) }
    ensures kept { OnOk result (bound.new.trail.items ≡ bound.old.trail.items) }
{
    let mut first = None;
    let mut cells = Vec::new(here.alloc);
    for g in gs {
        let one = generator(g, folds, here, bound, known)?;
        first = earlier(first, one.first);
        cells.push(one.cell)?;
    }
    Ok(JudgedCells { first, cells })
}

// An operation, with the base that the cells need; a missing default has the given one.
#[cycle(walk)]
fn operation<'a>(
    op: &'a Operation,
    cell: Option<Base>,
    here: &Place<'a>,
    bound: &mut Bound<'a>,
    known: &mut Known<'a>,
) -> Result<Judged, Memory>
    ensures first { IfOk result (λ r. r.first
        ≡ (in_operation (place here.now) (View.operation op.now) cell (among bound.old.trail.items) (entered known.old)).first) }
    ensures base { IfOk result (λ r. r.base
        ≡ (in_operation (place here.now) (View.operation op.now) cell (among bound.old.trail.items) (entered known.old)).base) }
    ensures known { OnOk result (entered known.new
        ≡ (in_operation (place here.now) (View.operation op.now) cell (among bound.old.trail.items) (entered known.old)).known) }
    ensures kept { OnOk result (bound.new.trail.items ≡ bound.old.trail.items) }
{
    match op {
        Operation::Genarray {
            shape,
            default,
            site,
        } => {
            let extents = expression(shape, here, bound, known)?;
            let default = optional(default, cell, here, bound, known)?;
            let own = unless(may_be(Base::Int, extents.base), CheckCode::C4, *site);
            Ok(Judged {
                first: earlier(earlier(own, extents.first), default.first),
                base: default.base,
            })
        }
        Operation::Modarray { array, .. } => expression(array, here, bound, known),
        Operation::Fold { op, neutral, site } => {
            let neutral = expression(neutral, here, bound, known)?;
            let fits = operands_fit(*op, neutral.base, neutral.base);
            Ok(Judged {
                first: earlier(unless(fits, CheckCode::C4, *site), neutral.first),
                base: neutral.base,
            })
        }
    }
}

#[cycle(walk)]
fn statement<'a>(
    s: &'a Statement,
    here: &Place<'a>,
    bound: &mut Bound<'a>,
    known: &mut Known<'a>,
) -> Result<Option<Violation>, Memory>
    ensures first { IfOk result (λ r. r ≡ (in_statement (place here.now) (View.stmt s.now) (among bound.old.trail.items) (entered known.old)).first) }
    ensures known { OnOk result (entered known.new
        ≡ (in_statement (place here.now) (View.stmt s.now) (among bound.old.trail.items) (entered known.old)).known) }
    ensures names { OnOk result (among bound.new.trail.items ≡ bound_after (View.stmt s.now) (among bound.old.trail.items)) }
    ensures kept { OnOk result (take (length bound.old.trail.items) bound.new.trail.items ≡ bound.old.trail.items) }
{
    match s {
        Statement::Assign { targets, value } => assign(value, targets, here, bound, known),
        Statement::Replace {
            target,
            bracket,
            index,
            value: e,
        } => {
            let own = use_rules(here, &target.name, target.site, bound);
            let place = expression(index, here, bound, known)?;
            let value = expression(e, here, bound, known)?;
            let own_base = bind_replaced(&target.name, bound, known)?;
            Ok(replacement(own, place, *bracket, value, own_base, target.site))
        }
        Statement::If {
            cond,
            yes,
            no,
            site,
        } => {
            let test = expression(cond, here, bound, known)?;
            let blocks = branches(yes, no, here, bound, known)?;
            Ok(earlier(condition(test, *site), blocks))
        }
        Statement::While { cond, body, site } => {
            let test = expression(cond, here, bound, known)?;
            let mark = bound.mark();
            let turn = block(body, here, bound, known)?;
            bound.leave(mark);
            Ok(earlier(condition(test, *site), turn))
        }
        Statement::Do {
            body,
            cond,
            test,
            ..
        } => {
            let turn = block(body, here, bound, known)?;
            let again = expression(cond, here, bound, known)?;
            let own = unless(may_be(Base::Bool, again.base), CheckCode::C4, *test);
            Ok(earlier(earlier(turn, own), again.first))
        }
    }
}

// Binds the name of an array of which something is replaced, which tells it no base, and gives the base that it has.
fn bind_replaced<'a>(
    name: &'a Name,
    bound: &mut Bound<'a>,
    known: &mut Known<'a>,
) -> Result<Option<Base>, Memory>
    ensures base { IfOk result (λ r. r ≡ base_known (bind_name name.now None (entered known.old)) name.now) }
    ensures known { OnOk result (entered known.new ≡ bind_name name.now None (entered known.old)) }
    ensures names { OnOk result (among bound.new.trail.items ≡ with_names (name.now ∷ []) (among bound.old.trail.items)) }
    ensures kept { OnOk result (take (length bound.old.trail.items) bound.new.trail.items ≡ bound.old.trail.items) }
{
    bind(known, name, None)?;
    let base = base_of(known, name);
    bound.push(name.as_str())?;
    Ok(base)
}

// A condition is bool.
fn condition(test: Judged, site: Site) -> Option<Violation>
    ensures { result ≡ condition_first test.first test.base site }
{
    let own = unless(may_be(Base::Bool, test.base), CheckCode::C4, site);
    earlier(own, test.first)
}

// A replacement, by its parts: its index is int, and the value has the base of the target's name.
fn replacement(
    own: Option<Violation>,
    place: Judged,
    bracket: Site,
    value: Judged,
    own_base: Option<Base>,
    site: Site,
) -> Option<Violation>
    ensures { result ≡ replaced_first own place.first place.base bracket value.first value.base own_base site }
{
    let index = unless(may_be(Base::Int, place.base), CheckCode::C4, bracket);
    let base = unless(may_match(own_base, value.base), CheckCode::C4, site);
    let rules = earlier(earlier(own, index), base);
    earlier(earlier(rules, place.first), value.first)
}

#[cycle(walk)]
fn assign<'a>(
    e: &'a Expression,
    targets: &'a [Target],
    here: &Place<'a>,
    bound: &mut Bound<'a>,
    known: &mut Known<'a>,
) -> Result<Option<Violation>, Memory>
    ensures first { IfOk result (λ r. r
        ≡ (in_statement (place here.now) (Tree.assign targets.now (View.expr e.now)) (among bound.old.trail.items) (entered known.old)).first) }
    ensures known { OnOk result (entered known.new
        ≡ (in_statement (place here.now) (Tree.assign targets.now (View.expr e.now)) (among bound.old.trail.items) (entered known.old)).known) }
    ensures names { OnOk result (among bound.new.trail.items ≡ bound_after (Tree.assign targets.now (View.expr e.now)) (among bound.old.trail.items)) }
    ensures kept { OnOk result (take (length bound.old.trail.items) bound.new.trail.items ≡ bound.old.trail.items) }
{
    match e {
        Expression::Call(name, es, site) => {
            let args = expressions(es, here, bound, known)?;
            let called = call_results(here, name, &args, targets.len(), *site)?;
            bind_values(
                targets,
                called.first,
                &called.bases,
                here.alloc,
                bound,
                known,
            )
        }
        _ => {
            let value = expression(e, here, bound, known)?;
            let own = earlier(several_targets(targets), value.first);
            bind_values(targets, own, &[value.base], here.alloc, bound, known)
        }
    }
}

// Binds targets, of which no two are alike, to values of these bases.
fn bind_values<'a>(
    targets: &'a [Target],
    own: Option<Violation>,
    bases: &[Option<Base>],
    alloc: Global,
    bound: &mut Bound<'a>,
    known: &mut Known<'a>,
) -> Result<Option<Violation>, Memory>
    ensures first { IfOk result (λ r. r ≡ earlier_of (earlier_of own (targets_repeated no_names targets.now))
        (in_targets targets.now bases.now (entered known.old)).first) }
    ensures known { OnOk result (entered known.new ≡ (in_targets targets.now bases.now (entered known.old)).known) }
    ensures names { OnOk result (among bound.new.trail.items ≡ with_names (target_names targets.now) (among bound.old.trail.items)) }
    ensures kept { OnOk result (take (length bound.old.trail.items) bound.new.trail.items ≡ bound.old.trail.items) }
{
    let twice = repeated_targets(targets, alloc)?;
    let fits = bind_targets(targets, bases, known)?;
    push_targets(targets, bound)?;
    Ok(earlier(earlier(own, twice), fits))
}

// The blocks of a conditional: behind it a name is bound where both bind it.
#[cycle(walk)]
fn branches<'a>(
    yes: &'a [Statement],
    no: &'a [Statement],
    here: &Place<'a>,
    bound: &mut Bound<'a>,
    known: &mut Known<'a>,
) -> Result<Option<Violation>, Memory>
    ensures first { IfOk result (λ r. r
        ≡ (in_branches (place here.now) (View.block yes.now) (View.block no.now) (among bound.old.trail.items) (entered known.old)).first) }
    ensures known { OnOk result (entered known.new
        ≡ (in_branches (place here.now) (View.block yes.now) (View.block no.now) (among bound.old.trail.items) (entered known.old)).known) }
    ensures names { OnOk result (among bound.new.trail.items ≡ bound_by_both (View.block yes.now) (View.block no.now) (among bound.old.trail.items)) }
    ensures kept { OnOk result (take (length bound.old.trail.items) bound.new.trail.items ≡ bound.old.trail.items) }
{
    let mark = bound.mark();
    let one = block(yes, here, bound, known)?;
    let first = taken(mark, here.alloc, bound)?;
    let other = block(no, here, bound, known)?;
    bind_common(first, mark, here.alloc, bound)?;
    Ok(earlier(one, other))
}

// The names that were bound after the first ones, which they are taken off.
fn taken<'a>(mark: usize, alloc: Global, bound: &mut Bound<'a>) -> Result<IndexSet<&'a str>, Memory>
    ensures names { IfOk result (λ names. has names ≡ among (drop mark bound.old.trail.items)) }
    ensures left { OnOk result (bound.new.trail.items ≡ take mark bound.old.trail.items) }
{
    let names = bound.since(alloc, mark)?;
    bound.leave(mark);
    Ok(names)
}

// Leaves bound after the first names those that are in a set as well.
fn bind_common<'a>(
    first: IndexSet<&'a str>,
    mark: usize,
    alloc: Global,
    bound: &mut Bound<'a>,
) -> Result<(), Memory>
    ensures names { OnOk result (among bound.new.trail.items
        ≡ with_common (has first.entry) (among (drop mark bound.old.trail.items)) (among (take mark bound.old.trail.items))) }
    ensures kept { OnOk result (take (length (take mark bound.old.trail.items)) bound.new.trail.items ≡ take mark bound.old.trail.items) }
{
    let second = taken(mark, alloc, bound)?;
    bound.push_common(&first, &second)
}

#[cycle(walk)]
pub fn block<'a>(
    ss: &'a [Statement],
    here: &Place<'a>,
    bound: &mut Bound<'a>,
    known: &mut Known<'a>,
) -> Result<Option<Violation>, Memory>
    ensures first { IfOk result (λ r. r ≡ (in_block (place here.now) (View.block ss.now) (among bound.old.trail.items) (entered known.old)).first) }
    ensures known { OnOk result (entered known.new ≡ (in_block (place here.now) (View.block ss.now) (among bound.old.trail.items) (entered known.old)).known) }
    ensures names { OnOk result (among bound.new.trail.items ≡ bound_behind (View.block ss.now) (among bound.old.trail.items)) }
    ensures kept { OnOk result (take (length bound.old.trail.items) bound.new.trail.items ≡ bound.old.trail.items) }
{
    let mut first = None;
    for s in ss {
        let one = statement(s, here, bound, known)?;
        first = earlier(first, one);
    }
    Ok(first)
}
