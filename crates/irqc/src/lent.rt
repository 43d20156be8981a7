// The controller lent by its owner and updated there: document 01, "The controller's small state is lent by its owner and
// updated there, over by-value functions proved first". Each function copies the three words, asks the by-value function
// and, where that answers a controller, puts it back. Exported under C names, so that Rust can own a proved controller.
ghost use Rattle.std.specs.Prelude.{◌≡◌};
ghost use Rattle.irqc.specs.Irqc.{new_controller, source_set, levels_set, pending_cleared, mask_set, output_of, byte_read, byte_written};

use crate::{IrqController, IrqOutput};

#[unsafe(no_mangle)]
pub extern "C" fn irqc_lent_reset(c: &mut IrqController)
    ensures { c.new ≡ new_controller }
{
    *c = c.reset();
}

#[unsafe(no_mangle)]
pub extern "C" fn irqc_lent_pending(c: &IrqController) -> u16
    ensures { result ≡ c.now.pending }
{
    c.pending()
}

#[unsafe(no_mangle)]
pub extern "C" fn irqc_lent_enable_mask(c: &IrqController) -> u16
    ensures { result ≡ c.now.enable }
{
    c.enable_mask()
}

#[unsafe(no_mangle)]
pub extern "C" fn irqc_lent_set_enable_mask(c: &mut IrqController, mask: u16)
    ensures { c.new ≡ mask_set c.old mask }
{
    *c = c.set_enable_mask(mask);
}

#[unsafe(no_mangle)]
pub extern "C" fn irqc_lent_set_source(c: &mut IrqController, number: u32, level: bool)
    ensures { c.new ≡ source_set c.old number level }
{
    *c = c.set_source(number, level);
}

#[unsafe(no_mangle)]
pub extern "C" fn irqc_lent_set_source_levels(c: &mut IrqController, mask: u16, levels: u16)
    ensures { c.new ≡ levels_set c.old mask levels }
{
    *c = c.set_source_levels(mask, levels);
}

#[unsafe(no_mangle)]
pub extern "C" fn irqc_lent_clear_pending(c: &mut IrqController, mask: u16)
    ensures { c.new ≡ pending_cleared c.old mask }
{
    *c = c.clear_pending(mask);
}

#[unsafe(no_mangle)]
pub extern "C" fn irqc_lent_irq_output(c: &IrqController) -> IrqOutput
    ensures { result ≡ output_of c.now }
{
    c.irq_output()
}

#[unsafe(no_mangle)]
pub extern "C" fn irqc_lent_read(c: &IrqController, addr: u32) -> u8
    ensures { result ≡ byte_read c.now addr }
{
    c.read(addr)
}

#[unsafe(no_mangle)]
pub extern "C" fn irqc_lent_write(c: &mut IrqController, addr: u32, value: u8)
    ensures { c.new ≡ byte_written c.old addr value }
{
    *c = c.write(addr, value);
}
