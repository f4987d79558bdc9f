// The calls on the plotter's registers, which a host lends as one struct.

ghost use Rattle.std.specs.Prelude.{◌≡◌};
ghost use Rattle.plotter_registers.specs.Plotter as Plotter;

use plotter_registers::Registers;

#[unsafe(no_mangle)]
pub extern "C" fn larnt_plotter_write(r: &mut Registers, at: usize, value: u8) -> u32
    ensures { (result ≡ Plotter.write_number (Plotter.judged r.old at value)) × (r.new ≡ Plotter.after_write r.old at value) }
{
    host_plotter::registers::larnt_plotter_write(r, at, value)
}

#[unsafe(no_mangle)]
pub extern "C" fn larnt_plotter_step(r: &mut Registers)
    ensures { r.new ≡ Plotter.step_of r.old }
{
    host_plotter::registers::larnt_plotter_step(r)
}
