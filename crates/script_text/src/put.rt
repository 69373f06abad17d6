ghost use Rattle.std.specs.Prelude.{◌≡◌, ℕ, ◌+◌, ◌-◌, ◌*◌, ◌<◌, ◌≤◌, [], ◌∷◌, ◌++◌, length, decimal};
ghost use Rattle.script_text.specs.Commands.{name_of};
ghost use Rattle.script_text.specs.Laid.{Lays};

use logic::named::Named;

// A buffer that is written from its start on, as far as there is room, and the place behind what was written.
// Kept as it is: of `write!` std says what it writes only where it answers Ok, and a full buffer is no fault here.
#[derive(Drop)]
pub(crate) struct Writer<'a> {
    out: &'a mut [u8],
    end: usize,
}

// Each method lays a text behind what was laid so far.
impl<'a> Writer<'a> {
    pub(crate) fn new(out: &'a mut [u8]) -> Writer<'a>
        ensures same_reference { result.out.ghost_name ≡ out.entry.ghost_name }
        ensures unwritten { result.out.now ≡ out.old }
        ensures start { result.end ≡ 0 }
    {
        Writer { out, end: 0 }
    }

    // The bytes written.
    pub(crate) fn end(&self) -> usize
        ensures { result ≡ self.now.end }
    {
        self.end
    }

    pub(crate) fn put(&mut self, b: u8)
        ensures same_reference { self.new.out.ghost_name ≡ self.old.out.ghost_name }
        ensures lays { Lays self.old.out.now self.old.end (b ∷ []) self.new.end self.new.out.now }
    {
        if self.end < self.out.len() {
            self.out[self.end] = b;
            self.end += 1;
        }
    }

    pub(crate) fn put_text(&mut self, text: &[u8])
        ensures same_reference { self.new.out.ghost_name ≡ self.old.out.ghost_name }
        ensures lays { Lays self.old.out.now self.old.end text.now self.new.end self.new.out.now }
    {
        for b in text {
            self.put(*b);
        }
    }

    pub(crate) fn put_number(&mut self, n: u32)
        ensures same_reference { self.new.out.ghost_name ≡ self.old.out.ghost_name }
        ensures lays { Lays self.old.out.now self.old.end (decimal n) self.new.end self.new.out.now }
    {
        if n >= 10 {
            self.put_number(n / 10);
        }
        self.put(b'0' + (n % 10) as u8);
    }

    // The name of the value of a code; nothing where no value has it.
    pub(crate) fn put_name<F: Named>(&mut self, code: u16)
        ensures same_reference { self.new.out.ghost_name ≡ self.old.out.ghost_name }
        ensures lays { Lays self.old.out.now self.old.end (name_of F.Family.logic F.Named.naming code) self.new.end self.new.out.now }
    {
        if let Some(v) = F::of_code(code) {
            self.put_value::<F>(v);
        }
    }

    fn put_value<F: Named>(&mut self, v: F::Value)
        ensures same_reference { self.new.out.ghost_name ≡ self.old.out.ghost_name }
        ensures lays { Lays self.old.out.now self.old.end (F.Named.naming.name v) self.new.end self.new.out.now }
    {
        // Kept as it is: a family gives the bytes of a name by their numbers, so there is no slice to go over.
        for i in 0..F::name_width() {
            self.put(F::name_byte(v, i));
        }
    }
}
