//! The printer of derivations.

ghost use Rattle.std.specs.Prelude.{◌≡◌, ◌≤◌, ◌++◌, codes, length, map, IfOk, OnOk};
ghost use Rattle.std.specs.Fmt.{decimal};
ghost use Rattle.rs_text.specs.Sound.{IsSound};
ghost use Rattle.rs_model.specs.declared.limits.TheConstants.{MOST_ROLES, MOST_BOUND, MOST_CANDIDATES};
ghost use Rattle.rs_prefix.specs.declared.earliest.ActKind.TheVariants as act;
ghost use Rattle.rs_derivations.specs.Canonical.{canonical_text, shown_act, tree_of_act, tree_of_node};
ghost use Rattle.rs_derivations.specs.Lists.{with_separators};
ghost use Rattle.rs_derivations.specs.Printable.{RolesHaveNames, LabelsHaveNames, HasFewLabels, HasShortLists};
ghost use Rattle.rs_derivations.specs.declared.formats.Format.TheVariants.{Two};
ghost use Rattle.rs_derivations.specs.Texts as spec;
ghost use Rattle.rs_text.specs.NamePlaces.{name_at};

use crate::lists::ListTable;
use rs_derive::{DNode, Derivation};
use rs_model::{Act, Label, Names, NoMemory, Role, Sort};
use rs_prefix::ActKind;
use rs_text::Text;
use rs_text::shown::{push_name, push_sort};
use std::alloc::Global;

/// Prints the canonical text of a derivation, in format 2: a line with its role and its bound, a line for each different
/// list of pending acts, a line a node, and a closing brace.
///
/// Refused memory is the only error.
pub fn print_derivation(
    alloc: Global,
    names: &Names,
    derivation: &Derivation,
) -> Result<Text, NoMemory>
    requires sound { IsSound names.now }
    requires few_roles { length names.now.roles ≤ MOST_ROLES }
    requires roles { RolesHaveNames names.now derivation.now }
    requires labels { LabelsHaveNames names.now derivation.now }
    requires few_labels { HasFewLabels derivation.now }
    requires short_lists { HasShortLists derivation.now }
    requires bound { (1 ≤ derivation.now.bound) × (derivation.now.bound ≤ MOST_BOUND) }
    requires nodes { (1 ≤ length derivation.now.nodes) × (length derivation.now.nodes ≤ MOST_CANDIDATES) }
    ensures canonical { IfOk result (λ text. text ≡ canonical_text names.now derivation.now) }
{
    let mut text = Text::new(alloc);
    let nodes = derivation.nodes.as_slice();
    let lists = ListTable::of_nodes(alloc, nodes)?;
    push_head(&mut text, names, derivation.role, derivation.bound)?;
    push_lists(&mut text, names, lists.as_slice())?;
    push_nodes(&mut text, &lists, nodes)?;
    text.push(b"}\n")?;
    Ok(text)
}

/// The first line.
fn push_head(text: &mut Text, names: &Names, role: Role, bound: u8) -> Result<(), NoMemory>
    ensures { OnOk result (text.new ≡ text.old ++ spec.first_line_text (name_at names.now.roles role.0) Two bound) }
{
    text.push(b"derivation ")?;
    push_role(text, names, role)?;
    text.push(b" format 2")?;
    push_bound(text, bound)
}

fn push_role(text: &mut Text, names: &Names, role: Role) -> Result<(), NoMemory>
    ensures { OnOk result (text.new ≡ text.old ++ name_at names.now.roles role.0) }
{
    push_name(text, names.roles.as_slice(), usize::from(role.0))
}

/// What stands after the role in the first line.
fn push_bound(text: &mut Text, bound: u8) -> Result<(), NoMemory>
    ensures { OnOk result (text.new ≡ text.old ++ spec.bound_text bound) }
{
    text.push(b" bound ")?;
    text.push_number(u64::from(bound))?;
    text.push(b" {\n")
}

fn push_lists(text: &mut Text, names: &Names, lists: &[&[Act]]) -> Result<(), NoMemory>
    ensures { OnOk result (text.new ≡ text.old ++ spec.lists_text Two (map (λ acts. map (tree_of_act names.now) acts) (map (λ x. x.now) lists.now))) }
{
    for (place, acts) in lists.iter().enumerate() {
        push_list(text, names, place as u64 + 1, acts)?;
    }
    Ok(())
}

/// The line of a list.
fn push_list(text: &mut Text, names: &Names, number: u64, acts: &[Act]) -> Result<(), NoMemory>
    ensures { OnOk result (text.new ≡ text.old ++ spec.list_text number (map (tree_of_act names.now) acts.now)) }
{
    text.push(b"pending ")?;
    text.push_number(number)?;
    text.push(b": ")?;
    push_acts(text, names, acts)?;
    text.push(b"\n")
}

fn push_nodes(text: &mut Text, lists: &ListTable<'_>, nodes: &[DNode]) -> Result<(), NoMemory>
    ensures { OnOk result (text.new ≡ text.old ++ spec.nodes_text Two 0 (map (tree_of_node lists.now) nodes.now)) }
{
    for (number, node) in nodes.iter().enumerate() {
        let list = lists.number_of(node.pending.as_slice());
        push_node(text, number as u64, node, list as u64)?;
    }
    Ok(())
}

/// The line of a node, with the number of its list.
fn push_node(text: &mut Text, number: u64, node: &DNode, list: u64) -> Result<(), NoMemory>
    ensures { OnOk result (text.new ≡ text.old ++ spec.node_text Two number (record { state = node.now.state; pending = list; above = node.now.above; rank = node.now.rank; next = node.now.next })) }
{
    text.push_number(number)?;
    text.push(b": ")?;
    text.push_number(u64::from(node.state))?;
    text.push(b" with ")?;
    text.push_number(list)?;
    text.push(b" above ")?;
    push_rest(text, node)
}

/// What stands after the pending acts.
fn push_rest(text: &mut Text, node: &DNode) -> Result<(), NoMemory>
    ensures { OnOk result (text.new ≡ text.old ++ (decimal node.now.above ++ (codes " rank " ++ (decimal node.now.rank ++ (codes " next [" ++ (spec.numbers_text node.now.next ++ codes "]\n")))))) }
{
    text.push_number(u64::from(node.above))?;
    text.push(b" rank ")?;
    text.push_number(u64::from(node.rank))?;
    text.push(b" next [")?;
    push_numbers(text, node.next.as_slice())?;
    text.push(b"]\n")
}

fn push_acts(text: &mut Text, names: &Names, acts: &[Act]) -> Result<(), NoMemory>
    ensures { OnOk result (text.new ≡ text.old ++ spec.acts_text (map (tree_of_act names.now) acts.now)) }
{
    match acts {
        [] => Ok(()),
        [first, later @ ..] => {
            push_act(text, names, *first)?;
            push_later_acts(text, names, later)
        }
    }
}

fn push_later_acts(text: &mut Text, names: &Names, acts: &[Act]) -> Result<(), NoMemory>
    ensures { OnOk result (text.new ≡ text.old ++ with_separators (codes ", ") spec.act_text (map (tree_of_act names.now) acts.now)) }
{
    for act in acts {
        push_later_act(text, names, *act)?;
    }
    Ok(())
}

fn push_later_act(text: &mut Text, names: &Names, act: Act) -> Result<(), NoMemory>
    ensures { OnOk result (text.new ≡ text.old ++ (codes ", " ++ spec.act_text (tree_of_act names.now act))) }
{
    text.push(b", ")?;
    push_act(text, names, act)
}

fn push_act(text: &mut Text, names: &Names, act: Act) -> Result<(), NoMemory>
    ensures { OnOk result (text.new ≡ text.old ++ spec.act_text (tree_of_act names.now act)) }
{
    match act {
        Act::Puts { peer, label, sort } => push_pair(text, names, peer, ActKind::Send, label, sort),
        Act::Takes { peer, label, sort } => {
            push_pair(text, names, peer, ActKind::Receive, label, sort)
        }
    }
}

fn push_pair(
    text: &mut Text,
    names: &Names,
    peer: Role,
    kind: ActKind,
    label: Label,
    sort: Sort,
) -> Result<(), NoMemory>
    ensures { OnOk result (text.new ≡ text.old ++ spec.act_text (shown_act names.now kind peer label sort)) }
{
    push_role(text, names, peer)?;
    text.push(mark_text(kind))?;
    push_name(text, names.labels.as_slice(), usize::from(label.0))?;
    text.push(b"(")?;
    push_sort(text, sort)?;
    text.push(b")")
}

fn mark_text(kind: ActKind) -> &'static [u8]
    ensures { result.now ≡ spec.mark_text kind }
{
    match kind {
        ActKind::Send => b"!",
        ActKind::Receive => b"?",
    }
}

fn push_numbers(text: &mut Text, numbers: &[u32]) -> Result<(), NoMemory>
    ensures { OnOk result (text.new ≡ text.old ++ spec.numbers_text numbers.now) }
{
    match numbers {
        [] => Ok(()),
        [first, later @ ..] => {
            text.push_number(u64::from(*first))?;
            push_later_numbers(text, later)
        }
    }
}

fn push_later_numbers(text: &mut Text, numbers: &[u32]) -> Result<(), NoMemory>
    ensures { OnOk result (text.new ≡ text.old ++ with_separators (codes ", ") decimal numbers.now) }
{
    for number in numbers {
        push_later_number(text, *number)?;
    }
    Ok(())
}

fn push_later_number(text: &mut Text, number: u32) -> Result<(), NoMemory>
    ensures { OnOk result (text.new ≡ text.old ++ (codes ", " ++ decimal number)) }
{
    text.push(b", ")?;
    text.push_number(u64::from(number))
}
