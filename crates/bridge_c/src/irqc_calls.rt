// The interrupt controller, under C names.
ghost use Rattle.std.specs.Prelude.{◌≡◌};
ghost use Rattle.irqc.specs.Irqc.{new_controller, source_set, levels_set, pending_cleared, mask_set, output_of, byte_read, byte_written};

use irqc::{IrqController, IrqOutput};

#[unsafe(no_mangle)]
pub extern "C" fn irqc_new() -> IrqController
    ensures { result ≡ new_controller }
{
    bridge::irqc_calls::irqc_new()
}

#[unsafe(no_mangle)]
pub extern "C" fn irqc_reset(c: IrqController) -> IrqController
    ensures { result ≡ new_controller }
{
    bridge::irqc_calls::irqc_reset(c)
}

#[unsafe(no_mangle)]
pub extern "C" fn irqc_set_source(c: IrqController, number: u32, level: bool) -> IrqController
    ensures { result ≡ source_set c number level }
{
    bridge::irqc_calls::irqc_set_source(c, number, level)
}

#[unsafe(no_mangle)]
pub extern "C" fn irqc_set_source_levels(c: IrqController, mask: u16, levels: u16) -> IrqController
    ensures { result ≡ levels_set c mask levels }
{
    bridge::irqc_calls::irqc_set_source_levels(c, mask, levels)
}

#[unsafe(no_mangle)]
pub extern "C" fn irqc_clear_pending(c: IrqController, mask: u16) -> IrqController
    ensures { result ≡ pending_cleared c mask }
{
    bridge::irqc_calls::irqc_clear_pending(c, mask)
}

#[unsafe(no_mangle)]
pub extern "C" fn irqc_set_enable_mask(c: IrqController, mask: u16) -> IrqController
    ensures { result ≡ mask_set c mask }
{
    bridge::irqc_calls::irqc_set_enable_mask(c, mask)
}

#[unsafe(no_mangle)]
pub extern "C" fn irqc_read(c: IrqController, addr: u32) -> u8
    ensures { result ≡ byte_read c addr }
{
    bridge::irqc_calls::irqc_read(c, addr)
}

#[unsafe(no_mangle)]
pub extern "C" fn irqc_write(c: IrqController, addr: u32, value: u8) -> IrqController
    ensures { result ≡ byte_written c addr value }
{
    bridge::irqc_calls::irqc_write(c, addr, value)
}

#[unsafe(no_mangle)]
pub extern "C" fn irqc_irq_output(c: IrqController) -> IrqOutput
    ensures { result ≡ output_of c }
{
    bridge::irqc_calls::irqc_irq_output(c)
}
