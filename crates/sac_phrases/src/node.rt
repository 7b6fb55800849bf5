//! Trees from their parts, with their heights.
ghost use Rattle.std.specs.Prelude.{◌≡◌, ◌≢◌, ◌∷◌, ◌++◌, [], max, length, IfOk, IfErr, map};
ghost use Rattle.sac_ast.specs.Tree as tree;
ghost use Rattle.sac_ast.specs.View as view;
ghost use Rattle.sac_ast.specs.View.{expr, stmt};
ghost use Rattle.sac_ast.specs.Grammar.{index_of};
ghost use Rattle.sac_phrases.specs.declared.halt.Halt.TheVariants.{Memory};
ghost use Rattle.sac_phrases.specs.Contract.{unboxed};
ghost use Rattle.sac_phrases.specs.Heights.{IsAbove};
ghost use Rattle.sac_ast.specs.declared.Builtin.TheVariants.{Reshape};

use crate::halt::Halt;
use crate::place::{Measured, Place, node_height};
use sac_ast::{Bound, Builtin, Expression, Generator, Index, Operation, Statement, Target};
use sac_base::{Name, Op, Site};

// An expression on the heap.
fn boxed<'a>(
    place: Place,
    tree: Expression,
    height: u32,
) -> Result<Measured<Box<Expression>>, Halt<'a>>
    ensures tree { IfOk result (λ node. node.tree.value ≡ tree) }
    ensures height { IfOk result (λ node. node.height ≡ height) }
    ensures memory { IfErr result (λ e. e ≡ Memory) }
{
    let tree = Box::new(place.alloc, tree)?;
    Ok(Measured { tree, height })
}

/// A number.
pub fn number<'a>(place: Place, n: i32, site: Site) -> Result<Measured<Box<Expression>>, Halt<'a>>
    ensures tree { IfOk result (λ node. unboxed node.tree ≡ tree.number n site) }
    ensures height { IfOk result (λ node. node.height ≡ 1) }
    ensures memory { IfErr result (λ e. e ≡ Memory) }
{
    boxed(place, Expression::Number(n, site), 1)
}

/// A truth value.
pub fn truth<'a>(
    place: Place,
    truth: bool,
    site: Site,
) -> Result<Measured<Box<Expression>>, Halt<'a>>
    ensures tree { IfOk result (λ node. unboxed node.tree ≡ tree.truth truth site) }
    ensures height { IfOk result (λ node. node.height ≡ 1) }
    ensures memory { IfErr result (λ e. e ≡ Memory) }
{
    boxed(place, Expression::Truth(truth, site), 1)
}

/// A variable.
pub fn variable<'a>(place: Place, target: Target) -> Result<Measured<Box<Expression>>, Halt<'a>>
    ensures tree { IfOk result (λ node. unboxed node.tree ≡ tree.variable target.name target.site) }
    ensures height { IfOk result (λ node. node.height ≡ 1) }
    ensures memory { IfErr result (λ e. e ≡ Memory) }
{
    boxed(place, Expression::Variable(target.name, target.site), 1)
}

/// An operator of one operand.
pub fn unary<'a>(
    place: Place,
    op: Op,
    inner: Measured<Box<Expression>>,
    site: Site,
) -> Result<Measured<Box<Expression>>, Halt<'a>>
    ensures tree { IfOk result (λ node. unboxed node.tree ≡ tree.unary op (unboxed inner.tree) site) }
    ensures height { IfOk result (λ node. IsAbove node.height inner.height) }
    ensures memory { IfErr result (λ e. e ≡ Memory) }
{
    let height = node_height(inner.height);
    boxed(place, Expression::Unary(op, inner.tree, site), height)
}

/// An operator of two operands.
pub fn binary<'a>(
    place: Place,
    op: Op,
    left: Measured<Box<Expression>>,
    right: Measured<Box<Expression>>,
    site: Site,
) -> Result<Measured<Box<Expression>>, Halt<'a>>
    ensures tree { IfOk result (λ node. unboxed node.tree ≡ tree.binary op (unboxed left.tree) (unboxed right.tree) site) }
    ensures height { IfOk result (λ node. IsAbove node.height (max left.height right.height)) }
    ensures memory { IfErr result (λ e. e ≡ Memory) }
{
    let height = node_height(left.height.max(right.height));
    boxed(
        place,
        Expression::Binary(op, left.tree, right.tree, site),
        height,
    )
}

/// A conditional expression.
pub fn choice<'a>(
    place: Place,
    cond: Measured<Box<Expression>>,
    yes: Measured<Box<Expression>>,
    no: Measured<Box<Expression>>,
    site: Site,
) -> Result<Measured<Box<Expression>>, Halt<'a>>
    ensures tree { IfOk result (λ node. unboxed node.tree ≡ tree.choice (unboxed cond.tree) (unboxed yes.tree) (unboxed no.tree) site) }
    ensures height { IfOk result (λ node. IsAbove node.height (max cond.height (max yes.height no.height))) }
    ensures memory { IfErr result (λ e. e ≡ Memory) }
{
    let height = node_height(cond.height.max(yes.height.max(no.height)));
    boxed(
        place,
        Expression::Choice(cond.tree, yes.tree, no.tree, site),
        height,
    )
}

/// A selection from an array.
pub fn select<'a>(
    place: Place,
    array: Measured<Box<Expression>>,
    index: Measured<Box<Expression>>,
    site: Site,
) -> Result<Measured<Box<Expression>>, Halt<'a>>
    ensures tree { IfOk result (λ node. unboxed node.tree ≡ tree.select (unboxed array.tree) (unboxed index.tree) site) }
    ensures height { IfOk result (λ node. IsAbove node.height (max array.height index.height)) }
    ensures memory { IfErr result (λ e. e ≡ Memory) }
{
    let height = node_height(array.height.max(index.height));
    boxed(
        place,
        Expression::Select(array.tree, index.tree, site),
        height,
    )
}

/// An array literal.
pub fn literal<'a>(
    place: Place,
    list: Measured<Vec<Expression>>,
    site: Site,
) -> Result<Measured<Box<Expression>>, Halt<'a>>
    ensures tree { IfOk result (λ node. unboxed node.tree ≡ tree.literal (view.exprs list.tree.items) site) }
    ensures height { IfOk result (λ node. IsAbove node.height list.height) }
    ensures memory { IfErr result (λ e. e ≡ Memory) }
{
    let height = node_height(list.height);
    boxed(place, Expression::Literal(list.tree, site), height)
}

/// The index that a list stands for: its one expression, or the literal of them.
pub fn index_of<'a>(
    place: Place,
    mut list: Measured<Vec<Expression>>,
    site: Site,
) -> Result<Measured<Box<Expression>>, Halt<'a>>
    ensures tree { IfOk result (λ node. unboxed node.tree ≡ index_of site (map expr list.tree.items)) }
    ensures one { IfOk result (λ node. length list.tree.items ≡ 1 → node.height ≡ list.height) }
    ensures several { IfOk result (λ node. length list.tree.items ≢ 1 → IsAbove node.height list.height) }
    ensures memory { IfErr result (λ e. e ≡ Memory) }
{
    if list.tree.len() != 1 {
        return literal(place, list, site);
    }
    match list.tree.pop() {
        Some(only) => boxed(place, only, list.height),
        None => literal(place, list, site),
    }
}

/// A call.
pub fn call<'a>(
    place: Place,
    name: Name,
    list: Measured<Vec<Expression>>,
    site: Site,
) -> Result<Measured<Box<Expression>>, Halt<'a>>
    ensures tree { IfOk result (λ node. unboxed node.tree ≡ tree.call name (view.exprs list.tree.items) site) }
    ensures height { IfOk result (λ node. IsAbove node.height list.height) }
    ensures memory { IfErr result (λ e. e ≡ Memory) }
{
    let height = node_height(list.height);
    boxed(place, Expression::Call(name, list.tree, site), height)
}

/// A built-in function of one argument.
pub fn builtin<'a>(
    place: Place,
    builtin: Builtin,
    argument: Measured<Box<Expression>>,
    site: Site,
) -> Result<Measured<Box<Expression>>, Halt<'a>>
    ensures tree { IfOk result (λ node. unboxed node.tree ≡ tree.builtin builtin (view.exprs_of (unboxed argument.tree ∷ [])) site) }
    ensures height { IfOk result (λ node. IsAbove node.height argument.height) }
    ensures memory { IfErr result (λ e. e ≡ Memory) }
{
    let height = node_height(argument.height);
    let list = pushed(Vec::new(place.alloc), argument.tree)?;
    boxed(place, Expression::Builtin(builtin, list, site), height)
}

/// `reshape` of a shape and an array.
pub fn reshape<'a>(
    place: Place,
    shape: Measured<Box<Expression>>,
    array: Measured<Box<Expression>>,
    site: Site,
) -> Result<Measured<Box<Expression>>, Halt<'a>>
    ensures tree { IfOk result (λ node. unboxed node.tree ≡ tree.builtin Reshape (view.exprs_of (unboxed shape.tree ∷ unboxed array.tree ∷ [])) site) }
    ensures height { IfOk result (λ node. IsAbove node.height (max shape.height array.height)) }
    ensures memory { IfErr result (λ e. e ≡ Memory) }
{
    let height = node_height(shape.height.max(array.height));
    let list = pushed(Vec::new(place.alloc), shape.tree)?;
    let list = pushed(list, array.tree)?;
    boxed(
        place,
        Expression::Builtin(Builtin::Reshape, list, site),
        height,
    )
}

// The list with one more expression behind it.
fn pushed<'a>(mut list: Vec<Expression>, last: Box<Expression>) -> Result<Vec<Expression>, Halt<'a>>
    ensures trees { IfOk result (λ all. all.items ≡ list.items ++ (last.value ∷ [])) }
    ensures memory { IfErr result (λ e. e ≡ Memory) }
{
    list.push(Box::into_inner(last))?;
    Ok(list)
}

/// A with-loop.
pub fn with_loop<'a>(
    place: Place,
    generators: Measured<Vec<Generator>>,
    operation: Measured<Operation>,
    site: Site,
) -> Result<Measured<Box<Expression>>, Halt<'a>>
    ensures tree { IfOk result (λ node. unboxed node.tree ≡ tree.with_loop (view.generators generators.tree.items) (view.operation operation.tree) site) }
    ensures height { IfOk result (λ node. IsAbove node.height (max generators.height operation.height)) }
    ensures memory { IfErr result (λ e. e ≡ Memory) }
{
    let height = node_height(generators.height.max(operation.height));
    let operation = Box::new(place.alloc, operation.tree)?;
    boxed(
        place,
        Expression::With(generators.tree, operation, site),
        height,
    )
}

/// An assignment of one or more targets.
pub fn assign(targets: Vec<Target>, value: Measured<Box<Expression>>) -> Measured<Statement>
    ensures tree { stmt result.tree ≡ tree.assign targets.items (unboxed value.tree) }
    ensures height { IsAbove result.height value.height }
{
    Measured {
        tree: Statement::Assign {
            targets,
            value: Box::into_inner(value.tree),
        },
        height: node_height(value.height),
    }
}

/// The replacement of an element.
pub fn replace(
    target: Target,
    bracket: Site,
    index: Measured<Box<Expression>>,
    value: Measured<Box<Expression>>,
) -> Measured<Statement>
    ensures tree { stmt result.tree ≡ tree.replace target bracket (unboxed index.tree) (unboxed value.tree) }
    ensures height { IsAbove result.height (max index.height value.height) }
{
    Measured {
        tree: Statement::Replace {
            target,
            bracket,
            index: Box::into_inner(index.tree),
            value: Box::into_inner(value.tree),
        },
        height: node_height(index.height.max(value.height)),
    }
}

/// A conditional statement.
pub fn if_else(
    cond: Measured<Box<Expression>>,
    yes: Measured<Vec<Statement>>,
    no: Measured<Vec<Statement>>,
    site: Site,
) -> Measured<Statement>
    ensures tree { stmt result.tree ≡ tree.if_else (unboxed cond.tree) (view.block yes.tree.items) (view.block no.tree.items) site }
    ensures height { IsAbove result.height (max cond.height (max yes.height no.height)) }
{
    Measured {
        tree: Statement::If {
            cond: Box::into_inner(cond.tree),
            yes: yes.tree,
            no: no.tree,
            site,
        },
        height: node_height(cond.height.max(yes.height.max(no.height))),
    }
}

/// A `while` loop.
pub fn while_do(
    cond: Measured<Box<Expression>>,
    body: Measured<Vec<Statement>>,
    site: Site,
) -> Measured<Statement>
    ensures tree { stmt result.tree ≡ tree.while_do (unboxed cond.tree) (view.block body.tree.items) site }
    ensures height { IsAbove result.height (max cond.height body.height) }
{
    Measured {
        tree: Statement::While {
            cond: Box::into_inner(cond.tree),
            body: body.tree,
            site,
        },
        height: node_height(cond.height.max(body.height)),
    }
}

/// A `do` loop, with the site of its `while`.
pub fn do_while(
    body: Measured<Vec<Statement>>,
    cond: Measured<Box<Expression>>,
    site: Site,
    test: Site,
) -> Measured<Statement>
    ensures tree { stmt result.tree ≡ tree.do_while (view.block body.tree.items) (unboxed cond.tree) site test }
    ensures height { IsAbove result.height (max body.height cond.height) }
{
    Measured {
        tree: Statement::Do {
            body: body.tree,
            cond: Box::into_inner(cond.tree),
            site,
            test,
        },
        height: node_height(body.height.max(cond.height)),
    }
}

/// A bound that an expression gives.
pub fn given(value: Measured<Box<Expression>>) -> Measured<Bound>
    ensures tree { view.bound result.tree ≡ tree.at (unboxed value.tree) }
    ensures height { result.height ≡ value.height }
{
    Measured {
        tree: Bound::Given(Box::into_inner(value.tree)),
        height: value.height,
    }
}

/// The bound that a dot stands for, which has no height.
pub fn dot(site: Site) -> Measured<Bound>
    ensures tree { view.bound result.tree ≡ tree.dot site }
    ensures height { result.height ≡ 0 }
{
    Measured {
        tree: Bound::Dot(site),
        height: 0,
    }
}

/// A `genarray`, with its default where one is given.
pub fn genarray(
    shape: Measured<Box<Expression>>,
    default: Measured<Option<Expression>>,
    site: Site,
) -> Measured<Operation>
    ensures tree { view.operation result.tree ≡ tree.genarray (unboxed shape.tree) (view.maybe default.tree) site }
    ensures height { IsAbove result.height (max shape.height default.height) }
{
    Measured {
        tree: Operation::Genarray {
            shape: Box::into_inner(shape.tree),
            default: default.tree,
            site,
        },
        height: node_height(shape.height.max(default.height)),
    }
}

/// A `modarray`.
pub fn modarray(array: Measured<Box<Expression>>, site: Site) -> Measured<Operation>
    ensures tree { view.operation result.tree ≡ tree.modarray (unboxed array.tree) site }
    ensures height { IsAbove result.height array.height }
{
    Measured {
        tree: Operation::Modarray {
            array: Box::into_inner(array.tree),
            site,
        },
        height: node_height(array.height),
    }
}

/// A `fold`.
pub fn fold(op: Op, neutral: Measured<Box<Expression>>, site: Site) -> Measured<Operation>
    ensures tree { view.operation result.tree ≡ tree.fold op (unboxed neutral.tree) site }
    ensures height { IsAbove result.height neutral.height }
{
    Measured {
        tree: Operation::Fold {
            op,
            neutral: Box::into_inner(neutral.tree),
            site,
        },
        height: node_height(neutral.height),
    }
}
