//! The pairs whose loops are bound in one block.

ghost use Rattle.std.specs.Prelude.{◌≡◌, ◌-◌, ◌+◌, ◌^◌, ◌<◌, ◌≤◌, ◌++◌, [], ◌∷◌, Some, slice_get, slice_set, vec_len};
ghost use Rattle.std.specs.Prelude.{IfOk, IfSome, IfNone, OnOk, map, drop, length, reverse as reversed};
ghost use Rattle.core_ir.specs.Terms.{Gives, LetTerm, chain};
ghost use Rattle.core_ir.specs.View.{let_term, part_term};
ghost use Rattle.core_facts.specs.Facts.{note_all, right_facts};
ghost use Rattle.core_loops.specs.Steps.{facts_after};
ghost use Rattle.fact_table.specs.Table.{facts_of};
ghost use Rattle.plain_facts.specs.Called.{shapes_of};
ghost use Rattle.core_ir.specs.Terms.{parts_of as parts_in};
ghost use Rattle.binding_users.specs.Users.{AreUsers};
ghost use Rattle.fold_walk.specs.Making.{CannotTake, PiecesPlanned};
ghost use Rattle.fold_walk.specs.Pairing.{loop_with, IsSource};
ghost use Rattle.fold_walk.specs.Walking.{facts_behind, state_of, ConsumerMade, FirstFolded, LevelFolded, NoConsumer, TurnFolded, TurnKept};
ghost use Rattle.fold_walk.specs.Left.{NoPairAt};

use crate::making::{all_parts, all_pieces, are_few};
use crate::pairing::{bound_loop, learn_bindings};
use crate::state::{Folding, Given};
use crate::values::learn_binding;
use binding_users::Users;
use core_ir::{CorePart, Let, PartedLoop, PartedOp, Right, Var};
use fact_table::FactTable;
use foldable_pairs::{Producer, can_produce, fold_plan};
use sac_base::{Grid, Memory, Site};
use std::alloc::Global;

/// The greatest number that the next new variable may have where a pair is folded.
const ROOM: u64 = 2_147_483_649;

/// The bindings of a block, where each producer is folded into its consumer. The table learns what they tell.
pub fn fold_level(
    lets: Vec<Let>,
    results: &[Var],
    given: &Given<'_>,
    table: &mut FactTable,
    folding: &mut Folding,
) -> Result<Vec<Let>, Memory>
    ensures folded { IfOk result (λ new. LevelFolded (shapes_of given.now.called.now) given.now.function (facts_of table.old)
        (state_of folding.old) (state_of folding.new) (map let_term lets.items) (map let_term new.items) results.now) }
    ensures learned { IfOk result (λ new. facts_of table.new ≡ facts_after (shapes_of given.now.called.now) (map let_term new.items) (facts_of table.old)) }
    ensures earlier { OnOk result (drop (length table.new - length table.old) table.new ≡ table.old) }
{
    let mut behind = lets;
    behind.reverse();
    let mut users = Users::new(given.alloc);
    let mut done = Vec::new(given.alloc);
    while let Some(binding) = behind.pop() {
        let found = fold_first(
            &binding, &behind, results, given, table, folding, &mut users,
        )?;
        take_turn(
            binding,
            found,
            given,
            table,
            &mut users,
            &mut behind,
            &mut done,
        )?;
    }
    Ok(done)
}

/// A binding's consumer changes, or the binding stays: then it is done, and the table learns what it tells.
fn take_turn(
    binding: Let,
    found: Option<(usize, Let)>,
    given: &Given<'_>,
    table: &mut FactTable,
    users: &mut Users,
    behind: &mut Vec<Let>,
    done: &mut Vec<Let>,
) -> Result<(), Memory>
    requires { IfSome found (λ new. new.0 < vec_len behind.old) }
    ensures folded { OnOk result (IfSome found (λ new. TurnFolded behind.old.items behind.new.items done.old.items done.new.items
        table.old table.new new.0 new.1)) }
    ensures kept { OnOk result (IfNone found (TurnKept (shapes_of given.now.called.now) binding behind.old.items behind.new.items done.old.items done.new.items
        (facts_of table.old) (facts_of table.new))) }
    ensures earlier { OnOk result (drop (length table.new - length table.old) table.new ≡ table.old) }
    ensures count { vec_len behind.new ≡ vec_len behind.old }
    ensures users { OnOk result (AreUsers users.old (map let_term behind.old.items) → AreUsers users.new (map let_term behind.new.items)) }
{
    match found {
        Some((place, consumer)) => replace(given.alloc, place, consumer, users, behind),
        None => keep(binding, given, table, done),
    }
}

/// Puts a binding in the place of another, and notes its uses.
fn replace(
    alloc: Global,
    place: usize,
    new: Let,
    users: &mut Users,
    bindings: &mut Vec<Let>,
) -> Result<(), Memory>
    requires { place < vec_len bindings.old }
    ensures items { OnOk result (bindings.new.items ≡ slice_set bindings.old.items place new) }
    ensures count { vec_len bindings.new ≡ vec_len bindings.old }
    ensures users { OnOk result (AreUsers users.old (map let_term bindings.old.items) → AreUsers users.new (map let_term bindings.new.items)) }
{
    users.replace(alloc, place, &new)?;
    put(bindings, place, new);
    Ok(())
}

/// Puts a binding in the place of another.
fn put(bindings: &mut Vec<Let>, place: usize, new: Let)
    requires { place < vec_len bindings.old }
    ensures items { bindings.new.items ≡ slice_set bindings.old.items place new }
    ensures count { vec_len bindings.new ≡ vec_len bindings.old }
{
    bindings[place] = new;
}

/// The binding is done.
fn keep(
    binding: Let,
    given: &Given<'_>,
    table: &mut FactTable,
    done: &mut Vec<Let>,
) -> Result<(), Memory>
    ensures done { OnOk result (done.new.items ≡ done.old.items ++ (binding ∷ [])) }
    ensures learned { OnOk result (facts_of table.new ≡ note_all (facts_of table.old) (let_term binding).targets
        (right_facts (shapes_of given.now.called.now) (let_term binding).right (facts_of table.old))) }
    ensures earlier { OnOk result (drop (length table.new - length table.old) table.new ≡ table.old) }
{
    learn_binding(given.alloc, &binding, given.called, table)?;
    done.push(binding)?;
    Ok(())
}

/// The consumer of a binding's parted loop as it is after the fold, and its place among the bindings behind, the last of which comes first.
fn fold_first(
    binding: &Let,
    behind: &[Let],
    results: &[Var],
    given: &Given<'_>,
    table: &mut FactTable,
    folding: &mut Folding,
    users: &mut Users,
) -> Result<Option<(usize, Let)>, Memory>
    requires { AreUsers users.old (map let_term behind.now) }
    ensures some { IfOk result (λ found. IfSome found (λ new. FirstFolded (shapes_of given.now.called.now) given.now.function (facts_of table.old)
        (state_of folding.old) (state_of folding.new) (let_term binding.now) (map let_term behind.now) results.now new.0 (let_term new.1))) }
    ensures stays { IfOk result (λ found. IfNone found (state_of folding.new ≡ state_of folding.old)) }
    ensures none { IfOk result (λ found. IfNone found (NoPairAt (shapes_of given.now.called.now) (state_of folding.old).next (facts_of table.old)
        (chain (let_term binding.now ∷ reversed (map let_term behind.now)) (Gives results.now)))) }
    ensures table { OnOk result (table.new ≡ table.old) }
    ensures users { OnOk result (AreUsers users.new (map let_term behind.now)) }
{
    let Some((var, parted)) = bound_loop(binding) else {
        return Ok(None);
    };
    if !can_produce(given.alloc, parted.op, &parted.parts, given.called, table)? {
        return Ok(None);
    }
    let user = users.sole_user(given.alloc, var, behind, results)?;
    let Some(place) = user else {
        return Ok(None);
    };
    let producer = source_of(var, parted);
    match fold_at(&producer, binding, behind, place, given, table, folding)? {
        Some(new) => Ok(Some((place, new))),
        None => Ok(None),
    }
}

/// A bound loop as a producer.
fn source_of<'a>(var: Var, parted: &'a PartedLoop) -> Producer<'a>
    ensures { IsSource result var parted.now }
{
    Producer {
        var,
        frame: &parted.frame,
        parts: &parted.parts,
    }
}

/// The binding behind a producer at a place after the fold. Its place counts from the last of the bindings behind.
fn fold_at(
    producer: &Producer<'_>,
    binding: &Let,
    behind: &[Let],
    place: usize,
    given: &Given<'_>,
    table: &mut FactTable,
    folding: &mut Folding,
) -> Result<Option<Let>, Memory>
    requires { place < length behind.now }
    ensures some { IfOk result (λ found. IfSome found (λ new. (user : LetTerm) → slice_get (map let_term behind.now) place ≡ Some user →
        ConsumerMade (shapes_of given.now.called.now) given.now.function
        (facts_behind (shapes_of given.now.called.now) (let_term binding.now) (map let_term behind.now) place (facts_of table.old))
        (state_of folding.old) (state_of folding.new) producer.now user (let_term new))) }
    ensures stays { IfOk result (λ found. IfNone found (state_of folding.new ≡ state_of folding.old)) }
    ensures none { IfOk result (λ found. IfNone found ((user : LetTerm) → slice_get (map let_term behind.now) place ≡ Some user →
        NoConsumer (shapes_of given.now.called.now) given.now.function
        (facts_behind (shapes_of given.now.called.now) (let_term binding.now) (map let_term behind.now) place (facts_of table.old))
        (state_of folding.old).next producer.now user)) }
    ensures table { OnOk result (table.new ≡ table.old) }
{
    if bound_loop(&behind[place]).is_none() {
        return Ok(None);
    }
    let before = table.mark();
    learn_binding(given.alloc, binding, given.called, table)?;
    learn_bindings(given.alloc, &behind[place + 1..], given.called, table)?;
    let new = fold_into(producer, &behind[place], given, table, folding)?;
    table.undo(before);
    Ok(new)
}

/// The binding of a consumer after the fold. The table has what is known before it.
fn fold_into(
    producer: &Producer<'_>,
    user: &Let,
    given: &Given<'_>,
    table: &mut FactTable,
    folding: &mut Folding,
) -> Result<Option<Let>, Memory>
    ensures some { IfOk result (λ found. IfSome found (λ new. ConsumerMade (shapes_of given.now.called.now) given.now.function (facts_of table.old)
        (state_of folding.old) (state_of folding.new) producer.now (let_term user.now) (let_term new))) }
    ensures stays { IfOk result (λ found. IfNone found (state_of folding.new ≡ state_of folding.old)) }
    ensures none { IfOk result (λ found. IfNone found (NoConsumer (shapes_of given.now.called.now) given.now.function (facts_of table.old)
        (state_of folding.old).next producer.now (let_term user.now))) }
    ensures table { OnOk result (table.new ≡ table.old) }
{
    let Some((consumer, parted)) = bound_loop(user) else {
        return Ok(None);
    };
    if folding.progress.next > ROOM {
        return Ok(None);
    }
    let Some(pieces) = plan_pieces(producer, parted.op, &parted.parts, given, table)? else {
        return Ok(None);
    };
    let progress = &mut folding.progress;
    let parts = all_parts(given.alloc, producer, &parted.parts, pieces, progress)?;
    if folding.progress.next > given.most {
        return Err(Memory);
    }
    folding.log(given.function, producer.var, consumer)?;
    Ok(Some(with_parts(given.alloc, consumer, user.site, parted, parts)?))
}

/// The pieces that the parts of a consumer become, if it can take from the producer and they are few.
fn plan_pieces(
    producer: &Producer<'_>,
    op: PartedOp,
    parts: &[CorePart],
    given: &Given<'_>,
    table: &mut FactTable,
) -> Result<Option<Vec<Vec<(Grid, Vec<usize>)>>>, Memory>
    ensures some { IfOk result (λ found. IfSome found (λ pieces. PiecesPlanned (shapes_of given.now.called.now) (facts_of table.old) producer.now op
        (map part_term parts.now) pieces.items)) }
    ensures none { IfOk result (λ found. IfNone found (CannotTake (shapes_of given.now.called.now) (facts_of table.old) producer.now op
        (map part_term parts.now))) }
    ensures table { OnOk result (table.new ≡ table.old) }
{
    let Some(plans) = fold_plan(given.alloc, producer, op, parts, given.called, table)? else {
        return Ok(None);
    };
    let pieces = all_pieces(given.alloc, producer.var, parts, plans)?;
    if are_few(&pieces) {
        Ok(Some(pieces))
    } else {
        Ok(None)
    }
}

/// The same binding with other parts.
fn with_parts(
    alloc: Global,
    target: Var,
    site: Site,
    parted: &PartedLoop,
    parts: Vec<CorePart>,
) -> Result<Let, Memory>
    ensures { IfOk result (λ new. let_term new ≡ record {
      targets = target ∷ [];
      site = site;
      right = loop_with parted.now (parts_in (map part_term parts.items));
    }) }
{
    let mut targets = Vec::new(alloc);
    targets.push(target)?;
    Ok(Let {
        targets,
        site,
        right: Right::Parted(PartedLoop {
            frame: parted.frame.copy(alloc)?,
            base: parted.base,
            cell: parted.cell.copy(),
            op: parted.op,
            parts,
        }),
    })
}
