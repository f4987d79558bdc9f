// The calls on the plotter's registers, which a host lends as one struct.
ghost use Rattle.std.specs.Prelude.{◌≡◌};
ghost use Rattle.plotter_registers.specs.Plotter as Plotter;

use plotter_registers::Registers;

// A write of one byte: 0, or 16 or 17, which change nothing.
#[tactic(auto, unfolding(plotter_registers::specs::Plotter::write_of))]
pub fn larnt_plotter_write(r: &mut Registers, at: usize, value: u8) -> u32
    ensures { (result ≡ Plotter.write_number (Plotter.judged r.old at value)) × (r.new ≡ Plotter.after_write r.old at value) }
{
    let w = (*r).written(at, value);
    *r = w.registers;
    w.number
}

// One step; it changes nothing where the plotter is not busy.
pub fn larnt_plotter_step(r: &mut Registers)
    ensures { r.new ≡ Plotter.step_of r.old }
{
    *r = (*r).stepped();
}
