//! The table of lines.

use crate::index::Index;
use crate::state::LineState;
use lru::LruCache;
use std::alloc::{AllocError, Global};
use std::marker::Model;

/// What each line holds. Contracts see a plain list of states, and the clean lines in order of use. A segment's line and
/// the next victim are found without a look at all lines.
#[derive(Drop)]
pub struct LineTable {
    states: Vec<LineState>,
    /// The clean lines by their segments, the most recently used first.
    clean: LruCache<u32, u32>,
    /// The staging and stuck lines by their segments.
    held: Index,
    /// The lowest empty line, or the number of lines where none is.
    lowest: usize,
}

impl Model for LineTable {
    ghost use Rattle.hl_lines.specs.LineTable.{Lines};
    ghost use Rattle.hl_lines.specs.Indexes.{AreIndexed, order_of};

    ghost Value = { Lines };

    ghost view = { λ t. record { states = t.states.items; order = order_of t.clean.entries } };

    ghost invariant = { λ t. AreIndexed t.states.items t.clean t.held t.lowest };
}

impl LineTable {
    ghost use Rattle.std.specs.Prelude.{◌≡◌, ◌≢◌, ◌<◌, ◌↔◌, ℕ, Some, true, length, slice_set, IfOk, IfSome, OnOk, OnErr, IsNone};
    ghost use Rattle.hl_lines.specs.declared.state.LineState.TheVariants.{Empty, Staging};
    ghost use Rattle.hl_lines.specs.Lines.{is_aside, is_staging, line_with, segment_of, victim};
    ghost use Rattle.hl_lines.specs.LineTable.{AreLines, IsTaken, MayBeReleased, MayBeStaged, MayBeTaken, NoOther, fresh, state_at, with_aside, with_bound, with_empty, with_homed, with_staged, with_stuck, with_touched, with_unstuck};

    /// A table of so many empty lines.
    pub fn new(alloc: Global, lines: u32) -> Result<LineTable, AllocError>
        ensures { IfOk result (λ t. t ≡ fresh lines) }
    {
        let states = vec![in alloc; LineState::Empty; lines as usize]?;
        let clean = LruCache::unbounded(alloc)?;
        let held = Index::new(alloc, lines as usize)?;
        Ok(LineTable {
            states,
            clean,
            held,
            lowest: 0,
        })
    }

    /// What a line holds. A line that isn't there is empty.
    pub fn state(&self, line: u32) -> LineState
        ensures value { result ≡ state_at self.now line }
        ensures whole { AreLines self.now }
    {
        state_of(&self.states, line)
    }

    /// The line that holds a segment.
    pub fn of(&self, tseg: u32) -> Option<u32>
        ensures value { result ≡ line_with self.now.states tseg }
        ensures none { IsNone result ↔ ((line : ℕ) → segment_of (state_at self.now line) ≢ Some tseg) }
    {
        match self.clean.peek(&tseg) {
            Some(line) => Some(*line),
            None => self.held.get(tseg),
        }
    }

    /// The lowest empty line, or else the least recently used clean one whose segment isn't in `keep`. None exactly where
    /// every line is staging, stuck, set aside, or clean with a segment of `keep`. The work grows with `keep` alone.
    pub fn victim(&self, keep: &[u32]) -> Option<u32>
        ensures value { result ≡ victim self.now.states self.now.order keep.now }
        ensures none { IsNone result ↔ ((line : ℕ) → line < length self.now.states → IsTaken keep.now (state_at self.now line)) }
        ensures may { IfSome result (λ line. (line < length self.now.states) × MayBeTaken (state_at self.now line)) }
    {
        if self.lowest < self.states.len() {
            return Some(self.lowest as u32);
        }
        least_used(&self.clean, keep)
    }

    /// Says that a segment is used. Where its line is clean it becomes the most recently used.
    pub fn touch(&mut self, tseg: u32)
        ensures { self.new ≡ with_touched self.old tseg }
    {
        self.clean.promote(&tseg);
    }

    /// A line that was set aside holds a segment, which its volume has too. It is the most recently used. Nothing changes
    /// where memory is wanted.
    pub fn bind(&mut self, tseg: u32, line: u32) -> Result<(), AllocError>
        requires aside { is_aside (state_at self.old line) ≡ true }
        requires free { NoOther self.old line tseg }
        ensures bound { OnOk result (self.new ≡ with_bound self.old tseg line) }
        ensures kept { OnErr result (self.new ≡ self.old) }
    {
        let Ok(_) = self.clean.put(tseg, line) else {
            return Err(AllocError);
        };
        self.states[line as usize] = LineState::Clean { tseg };
        Ok(())
    }

    /// A line is written for a segment that no volume has yet.
    pub fn stage(&mut self, tseg: u32, line: u32)
        requires there { line < length self.old.states }
        requires may { MayBeStaged (state_at self.old line) }
        requires free { NoOther self.old line tseg }
        ensures { self.new ≡ with_staged self.old tseg line }
    {
        self.set_aside(line);
        self.hold(tseg, line);
    }

    /// A staging line's segment has come to its volume, and is the most recently used. Nothing changes where memory is
    /// wanted.
    pub fn home(&mut self, line: u32) -> Result<(), AllocError>
        requires { is_staging (state_at self.old line) ≡ true }
        ensures home { OnOk result (self.new ≡ with_homed self.old line) }
        ensures kept { OnErr result (self.new ≡ self.old) }
    {
        let LineState::Staging { tseg } = state_of(&self.states, line) else {
            unreachable!()
        };
        let Ok(_) = self.clean.put(tseg, line) else {
            return Err(AllocError);
        };
        self.held.remove(tseg);
        self.states[line as usize] = LineState::Clean { tseg };
        Ok(())
    }

    /// A line is set aside for a segment that is to be fetched.
    pub fn job(&mut self, line: u32)
        requires there { line < length self.old.states }
        requires may { MayBeTaken (state_at self.old line) }
        ensures { self.new ≡ with_aside self.old line }
    {
        self.set_aside(line);
    }

    /// A line is empty from now on.
    pub fn release(&mut self, line: u32)
        requires { MayBeReleased (state_at self.old line) }
        ensures { self.new ≡ with_empty self.old line }
    {
        self.set_aside(line);
        self.empty(line);
    }

    /// A staging line's segment finds no slot.
    pub fn stick(&mut self, line: u32)
        requires { is_staging (state_at self.old line) ≡ true }
        ensures { self.new ≡ with_stuck self.old line }
    {
        let LineState::Staging { tseg } = state_of(&self.states, line) else {
            unreachable!()
        };
        self.states[line as usize] = LineState::Stuck { tseg };
    }

    /// Each segment that found no slot may try again. It walks the lines.
    pub fn unstick(&mut self)
        ensures { self.new ≡ with_unstuck self.old }
    {
        unstick_all(&mut self.states);
    }

    /// Whatever a line held is forgotten.
    fn set_aside(&mut self, line: u32)
        requires { line < length self.old.states }
        ensures { self.new ≡ with_aside self.old line }
    {
        let state = state_of(&self.states, line);
        forget(state, &mut self.clean, &mut self.held);
        self.states[line as usize] = LineState::Aside;
        self.lowest = next_empty(&self.states, self.lowest);
    }

    /// A line that was set aside is staging.
    fn hold(&mut self, tseg: u32, line: u32)
        requires aside { is_aside (state_at self.old line) ≡ true }
        requires free { NoOther self.old line tseg }
        ensures { self.new ≡ record self.old { states = slice_set self.old.states line (Staging tseg) } }
    {
        self.held.put(tseg, line);
        self.states[line as usize] = LineState::Staging { tseg };
    }

    /// A line that was set aside is empty.
    fn empty(&mut self, line: u32)
        requires { is_aside (state_at self.old line) ≡ true }
        ensures { self.new ≡ record self.old { states = slice_set self.old.states line Empty } }
    {
        self.states[line as usize] = LineState::Empty;
        self.lowest = self.lowest.min(line as usize);
    }
}

ghost use Rattle.std.specs.Prelude.{◌≡◌, ◌<◌, ◌≤◌, ℕ, false, length, map, get_or};
ghost use Rattle.std.specs.List.{position_or_len};
ghost use Rattle.hl_lines.specs.declared.state.LineState.TheVariants.{Empty};
ghost use Rattle.hl_lines.specs.Indexes.{Forgets, IsFound, least_used};
ghost use Rattle.hl_lines.specs.Lines.{is_empty, unstuck};

/// What a line holds.
fn state_of(states: &[LineState], line: u32) -> LineState
    ensures { result ≡ get_or states.now line Empty }
{
    match states.get(line as usize) {
        Some(state) => *state,
        None => LineState::Empty,
    }
}

/// The least recently used line whose segment isn't in `keep`.
fn least_used(clean: &LruCache<u32, u32>, keep: &[u32]) -> Option<u32>
    ensures { result ≡ least_used keep.now clean.now.entries }
{
    for (tseg, line) in clean.iter().rev() {
        if !keep.contains(tseg) {
            return Some(*line);
        }
    }
    None
}

/// Forgets the segment of a line.
fn forget(state: LineState, clean: &mut LruCache<u32, u32>, held: &mut Index)
    requires { IsFound state held.old }
    ensures { Forgets state clean.old held.old clean.new held.new }
{
    match state {
        LineState::Clean { tseg } => {
            clean.pop(&tseg);
        }
        LineState::Staging { tseg } | LineState::Stuck { tseg } => held.remove(tseg),
        LineState::Empty | LineState::Aside => {}
    }
}

fn is_empty(state: LineState) -> bool
    ensures { result ≡ is_empty state }
{
    matches!(state, LineState::Empty)
}

/// The first empty line from `from` on, where none before it is empty, or the number of lines.
fn next_empty(states: &[LineState], from: usize) -> usize
    requires within { from ≤ length states.now }
    requires none_before { (k : ℕ) → k < from → is_empty (get_or states.now k Empty) ≡ false }
    ensures { result ≡ position_or_len is_empty states.now }
{
    'lines: for line in from..states.len() {
        if is_empty(states[line]) {
            return line;
        }
    }
    states.len()
}

/// A stuck line is staging.
fn unstuck(state: LineState) -> LineState
    ensures { result ≡ unstuck state }
{
    match state {
        LineState::Stuck { tseg } => LineState::Staging { tseg },
        other => other,
    }
}

/// Each stuck line is staging.

fn unstick_all(states: &mut [LineState])
    ensures { states.new ≡ map unstuck states.old }
{
    'lines: for state in states.iter_mut() {
        *state = unstuck(*state);
    }
}
