//! Marks on nodes, which spread along arms.
ghost use Rattle.std.specs.Prelude.{◌≡◌, ◌+◌, ◌<◌, ◌≤◌, ◌∷◌, [], ℕ, Bool, List, length, replicate, false, slice_index_or, IfOk, OnOk};
ghost use Rattle.std.specs.List.{All};
ghost use Rattle.rs_model.specs.Data.{Protocol_data};
ghost use Rattle.rs_project.specs.Marks.{AreListed, IsOn, IsSpread, LeadsWithin, Walking, flags_without, nexts_of_node, count_of_lowered, with_mark};
ghost use Rattle.rs_project.specs.Numbered.{nexts_of};
ghost use Rattle.rs_wellformed.specs.WellFormed.{IsWellFormed};

use rs_model::{Arm, NoMemory, Node, Protocol};
use std::alloc::Global;
use std::marker::Model;

/// Marks of nodes: a flag for each node, and a list of the nodes that are marked. So the marks of one search are read and
/// taken back for the next without a look at the other nodes.
#[derive(Drop)]
pub struct Marks {
    flags: Vec<bool>,
    numbers: Vec<u32>,
}

impl Model for Marks {
    ghost use Rattle.rs_project.specs.Marks.{AreListed, Marks_data};

    ghost Value = { Marks_data };

    ghost view = { λ m. record { flags = m.flags.items; numbers = m.numbers.items } };

    ghost invariant = { λ m. AreListed m.flags.items m.numbers.items };
}

impl Marks {
    /// No marks.
    pub fn new(alloc: Global) -> Marks
        ensures { result ≡ record { flags = []; numbers = [] } }
    {
        Marks {
            flags: Vec::new(alloc),
            numbers: Vec::new(alloc),
        }
    }

    /// The nodes that are marked, in the order in which they were marked.
    pub fn as_slice(&self) -> &[u32]
        ensures numbers { result.now ≡ self.now.numbers }
        ensures listed { AreListed self.now.flags self.now.numbers }
    {
        self.numbers.as_slice()
    }

    /// The flags.
    pub fn into_flags(self) -> Vec<bool>
        ensures { result.items ≡ self.flags }
    {
        let Marks { flags, .. } = self;
        flags
    }

    /// Marks the nodes to which the starts spread, and no others: along the arms of the nodes whose flag in `through` is set.
    pub fn spread(
        &mut self,
        protocol: &Protocol,
        through: &[bool],
        starts: &[u32],
    ) -> Result<(), NoMemory>
        requires well_formed { IsWellFormed protocol.now }
        requires through { length through.now ≡ length protocol.now.nodes }
        requires starts { All (λ s. s < length protocol.now.nodes) starts.now }
        ensures { OnOk result (IsSpread protocol.now through.now starts.now self.new.flags) }
    {
        self.clear(protocol.nodes.len())?;
        self.mark_starts(starts)?;
        let mut done = 0;
        while done < self.len() {
            let number = self.nth(done);
            done += 1;
            if through[number as usize] {
                self.mark_behind(&protocol.nodes[number as usize])?;
            }
        }
        Ok(())
    }

    fn mark_behind(&mut self, node: &Node) -> Result<(), NoMemory>
        requires { LeadsWithin (length self.old.flags) node.now }
        ensures size { OnOk result (length self.new.flags ≡ length self.old.flags) }
        ensures owed { OnOk result (count_of_lowered self.new.flags + length self.new.numbers ≡ count_of_lowered self.old.flags + length self.old.numbers) }
        ensures keeps { OnOk result ((protocol : Protocol_data) (through : List Bool) (starts : List ℕ) (done : ℕ) → Walking protocol through starts self.old done (nexts_of_node node.now)
            → Walking protocol through starts self.new done []) }
    {
        match node {
            Node::Finished => Ok(()),
            Node::Talk { arms, .. } => self.mark_nexts(arms.as_slice()),
        }
    }

    fn mark_nexts(&mut self, arms: &[Arm]) -> Result<(), NoMemory>
        requires { All (λ a. a.next < length self.old.flags) arms.now }
        ensures size { OnOk result (length self.new.flags ≡ length self.old.flags) }
        ensures owed { OnOk result (count_of_lowered self.new.flags + length self.new.numbers ≡ count_of_lowered self.old.flags + length self.old.numbers) }
        ensures keeps { OnOk result ((protocol : Protocol_data) (through : List Bool) (starts : List ℕ) (done : ℕ) → Walking protocol through starts self.old done (nexts_of arms.now)
            → Walking protocol through starts self.new done []) }
    {
        for arm in arms {
            self.mark(arm.next)?;
        }
        Ok(())
    }

    fn mark_starts(&mut self, starts: &[u32]) -> Result<(), NoMemory>
        requires { All (λ s. s < length self.old.flags) starts.now }
        ensures size { OnOk result (length self.new.flags ≡ length self.old.flags) }
        ensures keeps { OnOk result ((protocol : Protocol_data) (through : List Bool) (all : List ℕ) (done : ℕ) → Walking protocol through all self.old done starts.now
            → Walking protocol through all self.new done []) }
    {
        for start in starts {
            self.mark(*start)?;
        }
        Ok(())
    }

    fn mark(&mut self, number: u32) -> Result<(), NoMemory>
        requires { number < length self.old.flags }
        ensures size { OnOk result (length self.new.flags ≡ length self.old.flags) }
        ensures owed { OnOk result (count_of_lowered self.new.flags + length self.new.numbers ≡ count_of_lowered self.old.flags + length self.old.numbers) }
        ensures keeps { OnOk result ((protocol : Protocol_data) (through : List Bool) (starts soon : List ℕ) (done : ℕ) → Walking protocol through starts self.old done (number ∷ soon)
            → Walking protocol through starts self.new done soon) }
    {
        if !self.has(number) {
            self.add(number)?;
        }
        Ok(())
    }

    fn has(&self, number: u32) -> bool
        requires { number < length self.now.flags }
        ensures { result ≡ slice_index_or self.now.flags number false }
    {
        self.flags[number as usize]
    }

    fn len(&self) -> usize
        ensures { result ≡ length self.now.numbers }
    {
        self.numbers.len()
    }

    // The node that was marked after n others.
    fn nth(&self, place: usize) -> u32
        requires { place < length self.now.numbers }
        ensures { result ≡ slice_index_or self.now.numbers place 0 }
    {
        self.numbers[place]
    }

    fn add(&mut self, number: u32) -> Result<(), NoMemory>
        requires { number < length self.old.flags }
        ensures { OnOk result (self.new ≡ with_mark self.old number) }
    {
        self.numbers.push(number)?;
        self.flags[number as usize] = true;
        Ok(())
    }

    // Takes all marks back, and has room for those of n nodes.
    fn clear(&mut self, count: usize) -> Result<(), NoMemory>
        ensures size { OnOk result (length self.new.flags ≡ count) }
        ensures none { OnOk result ((n : ℕ) → IsOn self.new.flags n → ⊥) }
        ensures numbers { OnOk result (self.new.numbers ≡ []) }
    {
        take_back(&mut self.flags, &self.numbers);
        self.numbers.clear();
        self.flags.resize(count, false)?;
        Ok(())
    }
}

fn take_back(flags: &mut Vec<bool>, numbers: &[u32])
    requires { All (λ n. n < length flags.old.items) numbers.now }
    ensures { flags.new.items ≡ flags_without numbers.now flags.old.items }
{
    for number in numbers {
        flags[*number as usize] = false;
    }
}

/// The nodes to which the starts spread: along the arms of the nodes whose flag in `through` is set.
pub fn spread(
    alloc: Global,
    protocol: &Protocol,
    through: &[bool],
    starts: &[u32],
) -> Result<Vec<bool>, NoMemory>
    requires well_formed { IsWellFormed protocol.now }
    requires through { length through.now ≡ length protocol.now.nodes }
    requires starts { All (λ s. s < length protocol.now.nodes) starts.now }
    ensures { IfOk result (λ v. IsSpread protocol.now through.now starts.now v.items) }
{
    let mut marks = Marks::new(alloc);
    marks.spread(protocol, through, starts)?;
    Ok(marks.into_flags())
}
