// Pushes and pops.

ghost use Rattle.std.specs.Prelude.{◌≡◌, ◌≢◌, ◌∷◌, ◌++◌, ◌-◌, ◌*◌, ◌≤◌, ◌%◌, ◌&&◌, [], All, MatchOption, None, Some, length, nat_le, negsuc, true};
ghost use Rattle.rv_decode.specs.declared.instr.ImmOp.TheVariants.{Addi};
ghost use Rattle.rv_decode.specs.declared.instr.Instr.TheVariants.{WithImm};
ghost use Rattle.sym_machine.specs.AddressParts.{bytes_of};
ghost use Rattle.sym_machine.specs.Answer.{RunsOn, RunsOnUnlessStuck};
ghost use Rattle.sym_machine.specs.Change.{Goes, load_word, puts, sets};
ghost use Rattle.sym_machine.specs.Expansions.{restores, saves};
ghost use Rattle.sym_machine.specs.Invariants.Frames as frames;
ghost use Rattle.sym_machine.specs.Invariants.Frames.{AreReached, HasStack, IsFrameBytes, IsFrameRegister, IsInStack, IsLoading, IsObstacle, IsZeroed, behind_loads};
ghost use Rattle.sym_machine.specs.State.{reg_of};
ghost use Rattle.sym_machine.specs.Step.{applied, in_turn, is_set};
ghost use Rattle.sym_machine.specs.Words.{code_of, number_of};
ghost use Rattle.zc_decode.specs.Lists.{registers_of};
ghost use Rattle.zc_decode.specs.Operands.{IsFrameSize};

use super::State;
use crate::why::Why;
use rv_decode::instr::LoadOp;
use zc_base::place::Place;
use zc_base::reg::Reg;
use zc_decode::lists::registers;

// What a pop does behind its loads: it raises sp and goes on, or returns, with 0 in a0 or not.
#[derive(Clone, Copy)]
pub(super) enum PopEnd {
    GoesOn,
    Returns,
    ReturnsZero,
}

impl State<'_> {
    // A push: sp is lowered, and the registers of a list are saved above it. Or nothing changes, and this is why.
    pub(super) fn push(&mut self, list: u8, adjust: u8, next: Place) -> Option<Why>
        requires running { self.old.core.exit ≡ None }
        requires stack { is_set self.old.map self.old.core ≡ true }
        requires size { IsFrameSize list adjust }
        ensures { RunsOnUnlessStuck (in_turn self.old.map (WithImm Addi 2 2 (negsuc (adjust - 1))
            ∷ saves adjust (registers_of list)) next self.old.core) result self.old.core self.new.core }
    {
        let (registers, frame) = (registers(list), u32::from(adjust));
        let sp = self.sp();
        let low = sp.wrapping_sub(frame);
        if !self.has_sp(low) {
            return Some(Why::StackPointer);
        }
        if let Some(why) = self.obstacle(low, frame) {
            return Some(why);
        }
        let _lowered = self.move_sp(low, next);
        self.save_all(low, frame, registers, next);
        None
    }

    // A pop: the registers of a list are restored, and sp is raised. It goes on, or returns to the place whose address
    // ra then holds. Or nothing changes, and this is why.
    pub(super) fn pop(&mut self, list: u8, adjust: u8, end: PopEnd, next: Place) -> Option<Why>
        requires running { self.old.core.exit ≡ None }
        requires stack { is_set self.old.map self.old.core ≡ true }
        requires size { IsFrameSize list adjust }
        ensures { RunsOnUnlessStuck (in_turn self.old.map (restores adjust (registers_of list)
            ++ behind_loads end adjust) next self.old.core) result self.old.core self.new.core }
    {
        let (registers, frame) = (registers(list), u32::from(adjust));
        let sp = self.sp();
        if let Some(why) = self.obstacle(sp, frame) {
            return Some(why);
        }
        let ra = sp.wrapping_add(frame - 4 * registers.len() as u32);
        let Some(to) = self.pop_target(end, ra, next) else {
            return Some(Why::TargetUnknown);
        };
        self.restore_all(sp, frame, registers, next);
        self.restore_ra(end, ra, to, next);
        self.clear_a0(end, next);
        let _raised = self.move_sp(sp.wrapping_add(frame), to);
        None
    }

    // The number in sp, which is set.
    #[inline(always)]
    fn sp(&self) -> u32
        requires { is_set self.now.map self.now.core ≡ true }
        ensures { HasStack self.now.map result self.now.core }
    {
        // The invariant speaks of the registers, so it is read here.
        let _ = &self.registers;
        self.memory.kept_from()
    }

    // Whether a number is an address of the stack, or its end.
    #[inline(always)]
    fn has_sp(&self, sp: u32) -> bool
        ensures { result ≡ (nat_le self.now.map.stack_low sp && nat_le sp self.now.map.stack_high) }
    {
        self.memory.has_sp(sp)
    }

    // Why the words of a frame that begins in the stack can't be loaded and stored, if they can't. The highest comes first,
    // and lies in the stack only if all of them do.
    #[inline(always)]
    fn obstacle(&self, sp: u32, frame: u32) -> Option<Why>
        requires low { self.now.map.stack_low ≤ sp }
        requires high { sp ≤ self.now.map.stack_high }
        requires frame { IsFrameBytes frame }
        ensures { MatchOption result (IsInStack self.now.map self.now.core sp frame)
            (IsObstacle self.now.core sp frame) }
    {
        // The invariant says where memory lies, so it is read here.
        let _ = &self.registers;
        if sp % 4 != 0 {
            return Some(Why::Misaligned);
        }
        if !self.has_sp(sp.wrapping_add(frame)) {
            return Some(Why::BadAddress);
        }
        None
    }

    // The words of registers go below an offset from sp, one below the other.
    fn save_all(&mut self, sp: u32, top: u32, registers: &[u8], next: Place)
        requires running { self.old.core.exit ≡ None }
        requires sp { number_of (reg_of self.old.core 2) ≡ Some sp }
        requires known { All IsFrameRegister registers.now }
        requires reached { AreReached self.old.core sp top (length registers.now) }
        ensures { RunsOn (in_turn self.old.map (saves top registers.now) next self.old.core) [] self.old.core
            self.new.core }
    {
        for k in 0..registers.len() {
            let r = Reg::new(registers[k]).unwrap();
            self.save(r, sp.wrapping_add(top - 4 * (k as u32 + 1)), next);
        }
    }

    // The word of a register goes to an address. Of a number no four bytes are copied.
    #[inline(always)]
    fn save(&mut self, r: Reg, a: u32, next: Place)
        requires { self.old.core.exit ≡ None }
        ensures made { RunsOn (applied self.old.map self.old.core (Goes (puts a (bytes_of (reg_of self.old.core r))
            next))) [] self.old.core self.new.core }
        ensures map { self.new.map ≡ self.old.map }
    {
        if let Some(n) = self.plain(r) {
            if self.put_numbers(a, &n.to_le_bytes(), next) {
                return;
            }
        }
        self.save_bytes(r, a, next);
    }

    // The word of a register, of whatever kind, goes to an address.
    #[inline(never)]
    fn save_bytes(&mut self, r: Reg, a: u32, next: Place)
        requires { self.old.core.exit ≡ None }
        ensures made { RunsOn (applied self.old.map self.old.core (Goes (puts a (bytes_of (reg_of self.old.core r))
            next))) [] self.old.core self.new.core }
        ensures map { self.new.map ≡ self.old.map }
    {
        let word = self.register(r).bytes();
        self.put_bytes(a, &[word.b0, word.b1, word.b2, word.b3], next);
    }

    // Registers but the last, which is ra, get the words below an offset from sp, one below the other.
    fn restore_all(&mut self, sp: u32, top: u32, registers: &[u8], next: Place)
        requires running { self.old.core.exit ≡ None }
        requires stack { HasStack self.old.map sp self.old.core }
        requires known { All IsFrameRegister registers.now }
        requires reached { AreReached self.old.core sp top (length registers.now) }
        ensures runs { (self.new.core.exit ≡ None) × (self.new.map ≡ self.old.map) }
        ensures loaded { IsLoading self.old.map sp top (length registers.now - 1) registers.now next self.old.core
            self.new.core }
    {
        for k in 0..registers.len().saturating_sub(1) {
            let r = Reg::new(registers[k]).unwrap();
            self.restore(r, sp.wrapping_add(top - 4 * (k as u32 + 1)), next);
        }
    }

    // ra gets the word at an address. If the pop returns, that is the address of the place where it leads.
    #[tactic(auto, using(crate::proofs::WordLaws::code_is))]
    fn restore_ra(&mut self, end: PopEnd, a: u32, to: Place, next: Place)
        requires running { self.old.core.exit ≡ None }
        requires leads { frames.pop_target end (code_of (load_word LoadOp.Lw self.old.core a)) next ≡ Some to }
        ensures made { RunsOn (applied self.old.map self.old.core (Goes (sets 1 (load_word LoadOp.Lw self.old.core a)
            next))) [] self.old.core self.new.core }
        ensures map { self.new.map ≡ self.old.map }
    {
        let ra = Reg::new(1).unwrap();
        match end {
            PopEnd::GoesOn => self.restore_bytes(ra, a, next),
            PopEnd::Returns | PopEnd::ReturnsZero => self.set_code(ra, to, next),
        }
    }

    // A register that is neither register 0 nor sp gets the word at an address. Of a number no four bytes are copied.
    #[inline(always)]
    fn restore(&mut self, r: Reg, a: u32, next: Place)
        requires running { self.old.core.exit ≡ None }
        requires some { r ≢ 0 }
        requires other { r ≢ 2 }
        ensures made { RunsOn (applied self.old.map self.old.core (Goes (sets r (load_word LoadOp.Lw self.old.core a)
            next))) [] self.old.core self.new.core }
        ensures map { self.new.map ≡ self.old.map }
    {
        match self.loaded_number(LoadOp::Lw, a) {
            Some(n) => self.set_number(r, n, next),
            None => self.restore_bytes(r, a, next),
        }
    }

    // The same of a word of whatever kind.
    #[inline(never)]
    fn restore_bytes(&mut self, r: Reg, a: u32, next: Place)
        requires running { self.old.core.exit ≡ None }
        requires some { r ≢ 0 }
        requires other { r ≢ 2 }
        ensures made { RunsOn (applied self.old.map self.old.core (Goes (sets r (load_word LoadOp.Lw self.old.core a)
            next))) [] self.old.core self.new.core }
        ensures map { self.new.map ≡ self.old.map }
    {
        let word = self.loaded(LoadOp::Lw, a);
        self.set_register(r, word, next);
    }

    // Where a pop leads, if that is known: to the next place, or to the one whose address is to be restored to ra.
    #[inline(always)]
    fn pop_target(&self, end: PopEnd, ra: u32, next: Place) -> Option<Place>
        ensures { result ≡ frames.pop_target end (code_of (load_word LoadOp.Lw self.now.core ra)) next }
    {
        match end {
            PopEnd::GoesOn => Some(next),
            PopEnd::Returns | PopEnd::ReturnsZero => match self.loaded_code(ra) {
                Some(to) => Some(to),
                None => self.loaded(LoadOp::Lw, ra).code(),
            },
        }
    }

    // Gives 0 to a0, if the pop returns 0.
    #[inline(always)]
    fn clear_a0(&mut self, end: PopEnd, next: Place)
        requires { self.old.core.exit ≡ None }
        ensures runs { (self.new.core.exit ≡ None) × (self.new.map ≡ self.old.map) }
        ensures zeroed { IsZeroed end self.old.map next self.old.core self.new.core }
    {
        match end {
            PopEnd::GoesOn | PopEnd::Returns => {}
            PopEnd::ReturnsZero => self.set_number(Reg::new(10).unwrap(), 0, next),
        }
    }
}
