// The lent controller under C names: a static library over `irqc`. Each export asks that crate's function and states its clauses again.
#![tactic(auto)]

ghost use Rattle.std.specs.Prelude.{◌≡◌};
ghost use Rattle.irqc.specs.Irqc.{new_controller, source_set, levels_set, pending_cleared, mask_set, output_of, byte_read, byte_written};

use irqc::{IrqController, IrqOutput, lent};

#[unsafe(no_mangle)]
pub extern "C" fn irqc_lent_reset(c: &mut IrqController)
    ensures { c.new ≡ new_controller }
{
    lent::irqc_lent_reset(c);
}

#[unsafe(no_mangle)]
pub extern "C" fn irqc_lent_pending(c: &IrqController) -> u16
    ensures { result ≡ c.now.pending }
{
    lent::irqc_lent_pending(c)
}

#[unsafe(no_mangle)]
pub extern "C" fn irqc_lent_enable_mask(c: &IrqController) -> u16
    ensures { result ≡ c.now.enable }
{
    lent::irqc_lent_enable_mask(c)
}

#[unsafe(no_mangle)]
pub extern "C" fn irqc_lent_set_enable_mask(c: &mut IrqController, mask: u16)
    ensures { c.new ≡ mask_set c.old mask }
{
    lent::irqc_lent_set_enable_mask(c, mask);
}

#[unsafe(no_mangle)]
pub extern "C" fn irqc_lent_set_source(c: &mut IrqController, number: u32, level: bool)
    ensures { c.new ≡ source_set c.old number level }
{
    lent::irqc_lent_set_source(c, number, level);
}

#[unsafe(no_mangle)]
pub extern "C" fn irqc_lent_set_source_levels(c: &mut IrqController, mask: u16, levels: u16)
    ensures { c.new ≡ levels_set c.old mask levels }
{
    lent::irqc_lent_set_source_levels(c, mask, levels);
}

#[unsafe(no_mangle)]
pub extern "C" fn irqc_lent_clear_pending(c: &mut IrqController, mask: u16)
    ensures { c.new ≡ pending_cleared c.old mask }
{
    lent::irqc_lent_clear_pending(c, mask);
}

#[unsafe(no_mangle)]
pub extern "C" fn irqc_lent_irq_output(c: &IrqController) -> IrqOutput
    ensures { result ≡ output_of c.now }
{
    lent::irqc_lent_irq_output(c)
}

#[unsafe(no_mangle)]
pub extern "C" fn irqc_lent_read(c: &IrqController, addr: u32) -> u8
    ensures { result ≡ byte_read c.now addr }
{
    lent::irqc_lent_read(c, addr)
}

#[unsafe(no_mangle)]
pub extern "C" fn irqc_lent_write(c: &mut IrqController, addr: u32, value: u8)
    ensures { c.new ≡ byte_written c.old addr value }
{
    lent::irqc_lent_write(c, addr, value);
}
