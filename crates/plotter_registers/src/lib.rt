// The plotter's registers without a machine: what a write answers and leaves, and what a step does, by value;
// then the same on registers that are lent.
#![tactic(auto)]

ghost use Rattle.std.specs.Prelude.{◌≡◌, ◌<◌};
ghost use Rattle.plotter_registers.specs.Plotter as Plotter;

// In tenths of a millimetre.
#[repr(C)]
#[derive(Clone, Copy)]
pub struct Position {
    pub x: u16,
    pub y: u16,
}

// Where the pen is, the accepted target, and bytes 0 to 7: last command, status, target X (low, high),
// target Y (low, high), interrupt mask, pending.
#[repr(C)]
#[derive(Clone, Copy)]
pub struct Registers {
    pub pen: Position,
    pub target: Position,
    pub bytes: [u8; 8],
}

// Why a write is refused.
#[derive(Clone, Copy)]
pub enum BadWrite {
    ReadOnly,
    BadCommand,
}

// 0, or the number of the refusal.
pub fn write_number(answer: Result<(), BadWrite>) -> u32
    ensures { result ≡ Plotter.write_number answer }
{
    match answer {
        Ok(_) => 0,
        Err(BadWrite::ReadOnly) => 16,
        Err(BadWrite::BadCommand) => 17,
    }
}

// The registers after a write, and the number of its answer.
#[derive(Clone, Copy)]
pub struct Written {
    pub registers: Registers,
    pub number: u32,
}

// Two bytes, low byte first.
fn word(low: u8, high: u8) -> u16
    ensures { result ≡ Plotter.word_of low high }
{
    low as u16 + 256 * (high as u16)
}

// One tenth nearer, or there.
fn toward(at: u16, to: u16) -> u16
    ensures { result ≡ Plotter.toward at to }
{
    if at < to {
        return at + 1;
    }
    if to < at {
        return at - 1;
    }
    at
}

// Each axis one tenth nearer.
fn closer(pen: Position, to: Position) -> Position
    ensures { result ≡ Plotter.closer pen to }
{
    Position {
        x: toward(pen.x, to.x),
        y: toward(pen.y, to.y),
    }
}

impl Registers {
    // All 0.
    pub fn new() -> Self
        ensures { result ≡ Plotter.initial }
    {
        Registers {
            pen: Position { x: 0, y: 0 },
            target: Position { x: 0, y: 0 },
            bytes: [0; 8],
        }
    }

    pub fn busy(self) -> bool
        ensures { result ≡ Plotter.busy self }
    {
        let status = self.bytes[1];
        status & 2 != 0
    }

    // The target that bytes 2 to 5 spell.
    fn goal(self) -> Position
        ensures { result ≡ Plotter.goal self }
    {
        let x_low = self.bytes[2];
        let x_high = self.bytes[3];
        let y_low = self.bytes[4];
        let y_high = self.bytes[5];
        Position {
            x: word(x_low, x_high),
            y: word(y_low, y_high),
        }
    }

    // Busy on the way to a target.
    fn moving(self, to: Position) -> Self
        ensures { result ≡ Plotter.moving self to }
    {
        let mut next = self;
        let status = self.bytes[1];
        next.target = to;
        next.bytes[1] = (status & 251) | 2;
        next
    }

    // What a command from 1 to 4 does, but for byte 0.
    fn obeyed(self, command: u8) -> Self
        ensures { result ≡ Plotter.obeyed self command }
    {
        let mut next = self;
        let status = self.bytes[1];
        if command == 1 {
            next.bytes[1] = status | 1;
            return next;
        }
        if command == 2 {
            next.bytes[1] = status & 254;
            return next;
        }
        if command == 3 {
            return self.moving(Position { x: 0, y: 0 });
        }
        let to = self.goal();
        if 8410 < to.x {
            next.bytes[1] = status | 4;
            return next;
        }
        if 5940 < to.y {
            next.bytes[1] = status | 4;
            return next;
        }
        self.moving(to)
    }

    // Whether a write is accepted: first its place is judged, then the command.
    fn judged(self, at: usize, value: u8) -> Result<(), BadWrite>
        ensures { result ≡ Plotter.judged self at value }
    {
        if at == 1 {
            return Err(BadWrite::ReadOnly);
        }
        if 6 < at {
            return Err(BadWrite::ReadOnly);
        }
        if at != 0 {
            return Ok(());
        }
        if value == 0 {
            return Err(BadWrite::BadCommand);
        }
        if 4 < value {
            return Err(BadWrite::BadCommand);
        }
        if self.busy() {
            return Err(BadWrite::BadCommand);
        }
        Ok(())
    }

    // What an accepted write leaves.
    fn stored(self, at: usize, value: u8) -> Self
        requires { at < 7 }
        ensures { result ≡ Plotter.stored self at value }
    {
        if at == 0 {
            let mut next = self.obeyed(value);
            next.bytes[0] = value;
            return next;
        }
        let mut next = self;
        next.bytes[at] = value;
        if at == 6 {
            next.bytes[7] = 0;
            return next;
        }
        next
    }

    // A write of one byte, by value.
    pub fn written(self, at: usize, value: u8) -> Written
        ensures { result ≡ Plotter.write_of self at value }
    {
        let answer = self.judged(at, value);
        let number = write_number(answer);
        match answer {
            Ok(_) => Written {
                registers: self.stored(at, value),
                number,
            },
            Err(_) => Written {
                registers: self,
                number,
            },
        }
    }

    // Arrival: no longer busy, and pending where the mask asks for it.
    fn arrived(self) -> Self
        ensures { result ≡ Plotter.arrived self }
    {
        let mut next = self;
        let status = self.bytes[1];
        let mask = self.bytes[6];
        let pending = self.bytes[7];
        next.bytes[1] = status & 253;
        if mask & 1 != 0 {
            next.bytes[7] = pending | 1;
            return next;
        }
        next
    }

    // One step of the machine, by value.
    pub fn stepped(self) -> Self
        ensures { result ≡ Plotter.step_of self }
    {
        if !self.busy() {
            return self;
        }
        let from = self.pen;
        let to = self.target;
        let pen = closer(from, to);
        let mut next = self;
        next.pen = pen;
        if pen.x != to.x {
            return next;
        }
        if pen.y != to.y {
            return next;
        }
        next.arrived()
    }
}

// A write of one byte to registers that are lent: 0, or the number of the refusal.
#[tactic(auto, unfolding(crate::specs::Plotter::write_of))]
pub fn write(r: &mut Registers, at: usize, value: u8) -> u32
    ensures { (result ≡ Plotter.write_number (Plotter.judged r.old at value)) × (r.new ≡ Plotter.after_write r.old at value) }
{
    let w = (*r).written(at, value);
    *r = w.registers;
    w.number
}

// One step of registers that are lent.
pub fn step(r: &mut Registers)
    ensures { r.new ≡ Plotter.step_of r.old }
{
    *r = (*r).stepped();
}
