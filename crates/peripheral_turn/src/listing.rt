// The one listing of the peripheral processors' instructions.
ghost use Rattle.std.specs.Prelude.{◌≡◌};
ghost use Rattle.peripheral_turn.specs.Turn.{effect_from, peripheral_effect_of};

use super::rows::{direct, indexed_direct, indirect, second_row, seventh_row, sixth_row};
use peripheral_codes::addresses::View;
use peripheral_codes::constants::short_of;
use peripheral_codes::jumps::jump_of;
use peripheral_machine::effect::PeripheralEffect;
use peripheral_machine::numbers::Numbers;

// The effect of the instruction w at P: an arm for each code, with its mnemonic and name in the manual.
#[tactic(auto, unfolding(crate::specs::Turn::effect_from))]
fn effect_from(v: &View<'_>, c: &[u64], s: &Numbers, w: u64) -> PeripheralEffect
    ensures { result ≡ effect_from v.now.memory.words.now c.now s.now.places v.now.registers.processor w }
{
    let d = w % 64;
    match w / 64 % 64 {
        0o00 => jump_of(v, 0, d), // PSN Pass
        0o01 => jump_of(v, 1, d), // LJM Long jump to m + (d)
        0o02 => jump_of(v, 2, d), // RJM Return jump to m + (d)
        0o03 => jump_of(v, 3, d), // UJN Unconditional jump d
        0o04 => jump_of(v, 4, d), // ZJN Zero jump d
        0o05 => jump_of(v, 5, d), // NJN Nonzero jump d
        0o06 => jump_of(v, 6, d), // PJN Plus jump d
        0o07 => jump_of(v, 7, d), // MJN Minus jump d
        0o10 => short_of(v.registers, 0, d), // SHN Shift d
        0o11 => short_of(v.registers, 1, d), // LMN Logical difference d
        0o12 => short_of(v.registers, 2, d), // LPN Logical product d
        0o13 => short_of(v.registers, 3, d), // SCN Selective clear d
        0o14 => short_of(v.registers, 4, d), // LDN Load d
        0o15 => short_of(v.registers, 5, d), // LCN Load complement d
        0o16 => short_of(v.registers, 6, d), // ADN Add d
        0o17 => short_of(v.registers, 7, d), // SBN Subtract d
        0o20 => second_row(v, c, s, 0, d), // LDC Load dm
        0o21 => second_row(v, c, s, 1, d), // ADC Add dm
        0o22 => second_row(v, c, s, 2, d), // LPC Logical product dm
        0o23 => second_row(v, c, s, 3, d), // LMC Logical difference dm
        0o24 => second_row(v, c, s, 4, d), // PSN Pass
        0o25 => second_row(v, c, s, 5, d), // PSN Pass
        0o26 => second_row(v, c, s, 6, d), // EXN Exchange jump
        0o27 => second_row(v, c, s, 7, d), // RPN Read program address
        0o30 => direct(v, 0, d), // LDD Load (d)
        0o31 => direct(v, 1, d), // ADD Add (d)
        0o32 => direct(v, 2, d), // SBD Subtract (d)
        0o33 => direct(v, 3, d), // LMD Logical difference (d)
        0o34 => direct(v, 4, d), // STD Store (d)
        0o35 => direct(v, 5, d), // RAD Replace add (d)
        0o36 => direct(v, 6, d), // AOD Replace add one (d)
        0o37 => direct(v, 7, d), // SOD Replace subtract one (d)
        0o40 => indirect(v, 0, d), // LDI Load ((d))
        0o41 => indirect(v, 1, d), // ADI Add ((d))
        0o42 => indirect(v, 2, d), // SBI Subtract ((d))
        0o43 => indirect(v, 3, d), // LMI Logical difference ((d))
        0o44 => indirect(v, 4, d), // STI Store ((d))
        0o45 => indirect(v, 5, d), // RAI Replace add ((d))
        0o46 => indirect(v, 6, d), // AOI Replace add one ((d))
        0o47 => indirect(v, 7, d), // SOI Replace subtract one ((d))
        0o50 => indexed_direct(v, 0, d), // LDM Load (m + (d))
        0o51 => indexed_direct(v, 1, d), // ADM Add (m + (d))
        0o52 => indexed_direct(v, 2, d), // SBM Subtract (m + (d))
        0o53 => indexed_direct(v, 3, d), // LMM Logical difference (m + (d))
        0o54 => indexed_direct(v, 4, d), // STM Store (m + (d))
        0o55 => indexed_direct(v, 5, d), // RAM Replace add (m + (d))
        0o56 => indexed_direct(v, 6, d), // AOM Replace add one (m + (d))
        0o57 => indexed_direct(v, 7, d), // SOM Replace subtract one (m + (d))
        0o60 => sixth_row(v, c, s, 0, d), // CRD Central read from (A) to d
        0o61 => sixth_row(v, c, s, 1, d), // CRM Central read (d) words from (A) to m: left out
        0o62 => sixth_row(v, c, s, 2, d), // CWD Central write to (A) from d
        0o63 => sixth_row(v, c, s, 3, d), // CWM Central write (d) words to (A) from m: left out
        0o64 => sixth_row(v, c, s, 4, d), // AJM Jump to m if channel d active
        0o65 => sixth_row(v, c, s, 5, d), // IJM Jump to m if channel d inactive
        0o66 => sixth_row(v, c, s, 6, d), // FJM Jump to m if channel d full
        0o67 => sixth_row(v, c, s, 7, d), // EJM Jump to m if channel d empty
        0o70 => seventh_row(v, s, 0, d), // IAN Input to A from channel d
        0o71 => seventh_row(v, s, 1, d), // IAM Input (A) words to m from channel d: left out
        0o72 => seventh_row(v, s, 2, d), // OAN Output from A on channel d
        0o73 => seventh_row(v, s, 3, d), // OAM Output (A) words from m on channel d: left out
        0o74 => seventh_row(v, s, 4, d), // ACN Activate channel d
        0o75 => seventh_row(v, s, 5, d), // DCN Disconnect channel d
        0o76 => seventh_row(v, s, 6, d), // FAN Function (A) on channel d
        _ => seventh_row(v, s, 7, d), // 77 FNC Function m on channel d
    }
}

// The instruction at P.
pub(crate) fn effect_of(v: &View<'_>, c: &[u64], s: &Numbers) -> PeripheralEffect
    ensures { result ≡ peripheral_effect_of v.now.memory.words.now c.now s.now.places v.now.registers.processor }
{
    effect_from(v, c, s, v.memory.read(v.registers.processor.p))
}
