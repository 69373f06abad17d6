ghost use Rattle.std.specs.Prelude.{◌≡◌, ◌+◌, ◌*◌, ◌<◌};

use crate::sheet::Sheet;
use std::alloc::AllocError;
use vectors::laid::Kind;

const CLOCK: u16 = 0;

const NOT_CLOCK: u16 = 1;

const ONE: u16 = 602;

const FEEDBACK: u16 = 663;

const NOT_SELECT: u16 = 664;

const BUS: u16 = 665;

const DIFFERENCES: u16 = 680;

// The output of a register: each has ten nets, the last of which is its output.
fn register(i: u16) -> u16
    requires { i < 60 }
    ensures { result ≡ 11 + 10 * i }
{
    11 + 10 * i
}

// A latch that follows `data` while `open` is 1 and holds while `shut` is 1. The third AND covers
// the moment between the two.
fn draw_latch(
    sheet: &mut Sheet,
    data: u16,
    open: u16,
    shut: u16,
    first: u16,
) -> Result<(), AllocError>
    requires { first < 1000 }
{
    let kept = first + 4;
    sheet.add(Kind::And, data, open, 1)?;
    sheet.add(Kind::And, kept, shut, 1)?;
    sheet.add(Kind::And, data, kept, 1)?;
    sheet.add(Kind::Or, first, first + 1, 1)?;
    sheet.add(Kind::Or, first + 3, first + 2, 1)?;
    Ok(())
}

// What a register of the card takes at the next clock: the first thirty count, the others shift.
fn input(i: u16) -> u16
    requires { i < 60 }
{
    if i < 30 {
        return 603 + 2 * i;
    }
    if i == 30 {
        return FEEDBACK;
    }
    register(i - 1)
}

fn draw_registers(sheet: &mut Sheet) -> Result<(), AllocError> {
    for i in 0..60 {
        let first = 2 + 10 * i;
        draw_latch(sheet, input(i), NOT_CLOCK, CLOCK, first)?;
        draw_latch(sheet, first + 4, CLOCK, NOT_CLOCK, first + 5)?;
    }
    Ok(())
}

// Each bit of the counter with its carry, then what the shift register takes in.
fn draw_counter(sheet: &mut Sheet) -> Result<(), AllocError> {
    sheet.add(Kind::PullUp, 0, 0, 1)?;
    for i in 0..30 {
        sheet.add(Kind::Xor, register(i), ONE + 2 * i, 2)?;
        sheet.add(Kind::And, register(i), ONE + 2 * i, 1)?;
    }
    sheet.add(Kind::Xnor, register(59), register(45), 2)?;
    Ok(())
}

// Fifteen lines of a bus with two drivers and a pull-up each, of which the counter's first bit selects.
fn draw_bus(sheet: &mut Sheet) -> Result<(), AllocError> {
    sheet.add(Kind::Not, register(0), 0, 1)?;
    for j in 0..15 {
        sheet.add(Kind::Tri, register(1 + j), register(0), 3)?;
        sheet.join(Kind::Tri, register(30 + j), NOT_SELECT, BUS + j, 3)?;
        sheet.join(Kind::PullUp, 0, 0, BUS + j, 1)?;
    }
    Ok(())
}

// Whether the bus differs from the last fifteen bits of the shift register, line by line.
fn draw_differences(sheet: &mut Sheet) -> Result<(), AllocError> {
    for j in 0..15 {
        sheet.add(Kind::Xor, BUS + j, register(45 + j), 2)?;
    }
    Ok(())
}

// Whether any line differs.
fn draw_any_difference(sheet: &mut Sheet) -> Result<(), AllocError> {
    let mut any = DIFFERENCES;
    for j in 0..15 {
        any = sheet.add(Kind::Or, any, DIFFERENCES + j, 1)?;
    }
    Ok(())
}

// Sixty registers under one clock: a counter of thirty bits and a shift register of thirty.
pub fn draw_card(sheet: &mut Sheet) -> Result<(), AllocError> {
    sheet.add(Kind::Not, CLOCK, 0, 32)?;
    sheet.add(Kind::Not, CLOCK, 0, 1)?;
    draw_registers(sheet)?;
    draw_counter(sheet)?;
    draw_bus(sheet)?;
    draw_differences(sheet)?;
    draw_any_difference(sheet)
}

// A ring of five inverters, from the net `first` on, each with the delay of its net.
fn draw_ring<D: Fn(u16) -> u16>(sheet: &mut Sheet, first: u16, delay: D) -> Result<(), AllocError>
    requires room { first < 1020 }
    requires delays { D.IsAlwaysCallable delay }
{
    sheet.add(Kind::Not, first + 4, 0, delay(first))?;
    for net in first + 1..first + 5 {
        sheet.add(Kind::Not, net - 1, 0, delay(net))?;
    }
    Ok(())
}

// 204 rings, in each of which one change goes round.
pub fn draw_rings(sheet: &mut Sheet) -> Result<(), AllocError> {
    for r in 0..204 {
        draw_ring(sheet, 5 * r, |_| 1)?;
    }
    Ok(())
}

// A delay from 1 to 64, another for each neighbour.
fn delay(i: u16) -> u16 {
    7 * (i % 64) % 64 + 1
}

fn mixer(i: u16) -> Kind {
    match i % 4 {
        0 => Kind::And,
        1 => Kind::Or,
        _ => Kind::Xor,
    }
}

// 250 gates that mix `nets` nets from `first` on; `turn` turns their kinds and delays.
fn draw_mixers(sheet: &mut Sheet, first: u16, nets: u16, turn: u16) -> Result<(), AllocError>
    requires some { 0 < nets }
    requires room { first + nets < 1024 }
    requires turned { turn < 2 }
{
    for i in 0..250 {
        sheet.add(
            mixer(i + turn),
            (37 * i + 11) % nets + first,
            (61 * i + 29) % nets + first,
            delay(i + 3 * turn),
        )?;
    }
    Ok(())
}

// A hundred rings, 250 gates that mix their nets, and 250 that mix those.
pub fn draw_mixed(sheet: &mut Sheet) -> Result<(), AllocError> {
    for r in 0..100 {
        draw_ring(sheet, 5 * r, delay)?;
    }
    draw_mixers(sheet, 0, 500, 0)?;
    draw_mixers(sheet, 500, 250, 1)
}

// A slow oscillator beside a long chain that never changes.
pub fn draw_quiet(sheet: &mut Sheet) -> Result<(), AllocError> {
    sheet.add(Kind::Not, 0, 0, 64)?;
    sheet.add(Kind::PullDown, 0, 0, 1)?;
    for n in 2..1024 {
        sheet.add(Kind::Buffer, n - 1, 0, 1)?;
    }
    Ok(())
}

// A chain of inverters along which one change runs, and then nothing.
pub fn draw_still(sheet: &mut Sheet) -> Result<(), AllocError> {
    sheet.add(Kind::PullUp, 0, 0, 1)?;
    for n in 1..1024 {
        sheet.add(Kind::Not, n - 1, 0, 1)?;
    }
    Ok(())
}
