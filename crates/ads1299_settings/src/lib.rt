// A field's value in the registers, replaced.
#![tactic(auto)]

ghost use Rattle.std.specs.Prelude.{◌≡◌};
ghost use Rattle.ads1299_settings.specs.Registers.{with_field};

// The registers with the value in the field; as they stand where nothing is named or the value does not fit.
// Field, channel and value are numbers as a request has them, judged one by one; the definitions take them so.
#[tactic(auto, using(ads1299_fields::proofs::Apart::place_in_list, crate::proofs::Registers::settable_facts), unfolding(crate::specs::Registers::with_field, crate::specs::Registers::write_at))]
pub fn write(
    mut registers: [u8; ads1299_registers::COUNT],
    field: u32,
    channel: u32,
    value: u32,
) -> [u8; ads1299_registers::COUNT]
    ensures { result ≡ with_field registers field channel value }
{
    if ads1299_fields::is_settable(field, channel, value) {
        let place = ads1299_fields::locate(field, channel);
        let register = place.register as usize;
        let old = registers[register];
        registers[register] = bits::insert(old, place.bit, place.width, value as u8);
    }
    registers
}
