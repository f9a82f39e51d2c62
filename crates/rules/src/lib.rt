// The rules of one record on values, refusals 7 to 12: the first that it breaks.
#![tactic(auto)]

ghost use Rattle.std.specs.Prelude.{◌≡◌, ℕ, Bool, true, ◌+◌, ◌^◌, ◌≤◌, ◌<◌, leb, ltb};
ghost use Rattle.answers.specs.Answer.{broken};
ghost use Rattle.reading.specs.Tests.{every_below};
ghost use Rattle.reading.specs.Reader.{fed_tests, constant_tests, stands_apart, within_span, invocation_tests};
ghost use Rattle.records.specs.Says.{port};
ghost use Rattle.rules.specs.Failed.{first_failed};
ghost use Rattle.rules.specs.Calls.{no_look, calls};
ghost use Rattle.rules.specs.Known.{Known};
ghost use Rattle.rules.specs.Each.{of_instance, Computes};

use answers::Fault;
use records::Port;

// 9: "Every port, input or output, leaf or built, has e−s ≤ its own component's D."
pub fn interval_kept(p: Port, delay: u16) -> bool
    ensures { result ≡ leb p.end (p.start + delay) }
{
    u32::from(p.end) <= u32::from(p.start) + u32::from(delay)
}

// An invocation of an instance, at an offset, whose component has this delay; and what is known of the `count` invocations before it: the
// instance and the offset of each, and what the offsets of those of the same instance lie between.
#[derive(Clone, Copy)]
pub struct Invocation<'a> {
    pub instance: u16,
    pub offset: u16,
    pub delay: u16,
    // Two arrays of numbers and not one of structs, since only so does the compiler ask several places at once
    // (docs/DECISIONS.md, "Bounds before pairs").
    pub instances: &'a [u16; 64],
    pub offsets: &'a [u16; 64],
    pub count: usize,
    pub least: u16,
    pub greatest: u16,
    pub ghost room: { count ≤ 64 },
    pub ghost early: { offset < 65535 },
    pub ghost known: { Known instances.now offsets.now count instance least greatest },
}

impl Invocation<'_> {
    // Whether a test passes the offset of every invocation before that is of the same instance. All places are asked, without a branch and
    // with nothing wider than the test has it, so that the compiler asks several at once.
    fn each<F: Fn(u16) -> bool>(self, test: F) -> bool
        requires { F.IsAlwaysCallable test }
        ensures { (t : ℕ → Bool) → Computes (F.post test) t → result ≡ every_below (of_instance self.entry.instances.now self.entry.offsets.now self.entry.instance t) 64 }
    {
        let instances = self.instances;
        let offsets = self.offsets;
        let mut kept = true;
        for j in 0..64 {
            kept &= (instances[j] != self.instance) | test(offsets[j]);
        }
        kept
    }

    // 10. Before the least offset or after the greatest no pair needs a test.
    fn apart(self) -> bool
        ensures { result ≡ every_below (stands_apart no_look (calls 0 self.entry.count 0 self.entry.instances.now self.entry.offsets.now) self.entry.instance self.entry.offset self.entry.delay) self.entry.count }
    {
        let k = u32::from(self.offset);
        let d = u32::from(self.delay);
        if k + d <= u32::from(self.least) {
            return true;
        }
        if u32::from(self.greatest) + d <= k {
            return true;
        }
        let near = (self.offset + 1).saturating_sub(self.delay);
        let far = self.offset.saturating_add(self.delay);
        self.each(|o| (o < near) | (far <= o))
    }

    // 11. Where the least and the greatest offset keep it, all do.
    fn within(self, delay: u16) -> bool
        ensures { result ≡ every_below (within_span no_look (calls 0 self.entry.count delay self.entry.instances.now self.entry.offsets.now) self.entry.instance self.entry.offset self.entry.delay) self.entry.count }
    {
        let end = u32::from(self.offset) + u32::from(self.delay);
        let last = u32::from(self.offset) + u32::from(delay);
        let early = end <= u32::from(self.least) + u32::from(delay);
        let late = u32::from(self.greatest) + u32::from(self.delay) <= last;
        if early & late {
            return true;
        }
        self.each(|o| (end <= u32::from(o) + u32::from(delay))
            & (u32::from(o) + u32::from(self.delay) <= last))
    }

    // 7, 10 and 11 in a component with so many instances and this delay.
    pub fn refusal(self, instances: usize, delay: u16) -> Result<(), Fault>
        ensures { broken result ≡ first_failed (invocation_tests no_look (calls instances self.entry.count delay self.entry.instances.now self.entry.offsets.now) self.entry.instance self.entry.offset self.entry.delay) }
    {
        if instances <= usize::from(self.instance) {
            return Err(Fault::Reference);
        }
        if !self.apart() {
            return Err(Fault::Spacing);
        }
        if delay < self.delay || !self.within(delay) {
            return Err(Fault::Span);
        }
        Ok(())
    }
}

// 8 and 12 of port p, its event at cycle a, that is read at port q, its event at cycle k.
// 12: "The source's interval contains the required one."
pub fn fed_refusal(p: Port, a: u16, q: Port, k: u16) -> Result<(), Fault>
    ensures { broken result ≡ first_failed (fed_tests true (port p) a (port q) k) }
{
    let (a, k) = (u32::from(a), u32::from(k));
    if p.width != q.width {
        return Err(Fault::Width);
    }
    if k + u32::from(q.start) < a + u32::from(p.start) {
        return Err(Fault::Reading);
    }
    if a + u32::from(p.end) < k + u32::from(q.end) {
        return Err(Fault::Reading);
    }
    Ok(())
}

// "A constant is below 2 to the width (any 64-bit value at width 64)."
#[tactic(auto, using(crate::proofs::Shift::none_left, crate::proofs::Shift::all_below))]
fn below(v: u64, w: u8) -> bool
    ensures { result ≡ ltb v (2 ^ w) }
{
    64 <= w || v >> w == 0
}

// 7, 8 and 12 of a constant that is read at port q: it names nothing, and is there at every cycle.
pub fn constant_refusal(v: u64, q: Port) -> Result<(), Fault>
    ensures { broken result ≡ first_failed (constant_tests v (port q)) }
{
    if !below(v, q.width) {
        return Err(Fault::Width);
    }
    Ok(())
}
