ghost use Rattle.std.specs.Prelude.{◌≡◌, ℕ, ◌+◌, ◌-◌, ◌*◌, ◌/◌, ◌<◌, ◌≤◌, [], ◌∷◌, ◌++◌, length};
ghost use Rattle.script_text.specs.Laid.{Lays};
ghost use Rattle.script_text.specs.Texts.{ok_text, done_text, fault_text, level_text, certainty, record_at, records_text, trace_text, word16, word32};

use crate::put::Writer;
use logic::named::Named;

// Each writes one answer from the start of the buffer, as far as there is room, and answers the bytes written.

pub fn say_ok(out: &mut [u8]) -> usize
    ensures { Lays out.old 0 ok_text result out.new }
{
    let mut w = Writer::new(out);
    w.put_text(b"ok\n");
    w.end()
}

// A fault at a line: its number, the letter of its layer, its place.
pub fn say_fault(out: &mut [u8], line: u32, number: u32, letter: u8, place: u32) -> usize
    ensures { Lays out.old 0 (fault_text line number letter place) result out.new }
{
    let mut w = Writer::new(out);
    w.put_text(b"no ");
    w.put_number(line);
    w.put(b' ');
    w.put_number(number);
    w.put(b' ');
    w.put(letter);
    w.put(b' ');
    w.put_number(place);
    w.put(b'\n');
    w.end()
}

// A level, by its code.
pub fn say_level<F: Named>(out: &mut [u8], code: u16, definite: bool) -> usize
    ensures { Lays out.old 0 (level_text F.Family.logic F.Named.naming code definite) result out.new }
{
    let mut w = Writer::new(out);
    w.put_name::<F>(code);
    put_certainty(&mut w, definite);
    w.end()
}

fn put_certainty(w: &mut Writer, definite: bool)
    ensures same_reference { w.new.out.ghost_name ≡ w.old.out.ghost_name }
    ensures lays { Lays w.old.out.now w.old.end (certainty definite) w.new.end w.new.out.now }
{
    w.put_text(if definite { b" definite\n" } else { b" open\n" });
}

// The records of a trace, a line each, and the ticks that it covers.
pub fn say_trace<F: Named>(out: &mut [u8], trace: &[u8], ticks: u32) -> usize
    ensures { Lays out.old 0 (trace_text F.Family.logic F.Named.naming trace.now ticks) result out.new }
{
    let mut w = Writer::new(out);
    put_records::<F>(&mut w, trace);
    put_done(&mut w, ticks);
    w.end()
}

fn put_records<F: Named>(w: &mut Writer, trace: &[u8])
    ensures same_reference { w.new.out.ghost_name ≡ w.old.out.ghost_name }
    ensures lays { Lays w.old.out.now w.old.end (records_text F.Family.logic F.Named.naming trace.now (length trace.now / 8)) w.new.end w.new.out.now }
{
    let (records, _) = trace.as_chunks::<8>();
    for bytes in records {
        put_record::<F>(w, bytes);
    }
}

fn put_record<F: Named>(w: &mut Writer, bytes: &[u8; 8])
    ensures same_reference { w.new.out.ghost_name ≡ w.old.out.ghost_name }
    ensures lays { Lays w.old.out.now w.old.end (record_at F.Family.logic F.Named.naming bytes.now 0) w.new.end w.new.out.now }
{
    let [a, b, c, d, e, f, g, h] = *bytes;
    w.put_number(u32::from_be_bytes([a, b, c, d]));
    w.put(b' ');
    w.put_number(u16::from_be_bytes([e, f]) as u32);
    w.put(b' ');
    w.put_name::<F>(u16::from_be_bytes([g, h]));
    w.put(b'\n');
}

fn put_done(w: &mut Writer, ticks: u32)
    ensures same_reference { w.new.out.ghost_name ≡ w.old.out.ghost_name }
    ensures lays { Lays w.old.out.now w.old.end (done_text ticks) w.new.end w.new.out.now }
{
    w.put_text(b"done ");
    w.put_number(ticks);
    w.put(b'\n');
}
