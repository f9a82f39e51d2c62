// The reader of a component's records: what it keeps, which refusal a record meets with, and what it keeps after a record that meets with none.
// The definitions are those of `specs/State.antt`; the theory of reading says what they are good for.
#![tactic(auto)]

ghost use Rattle.std.specs.Prelude.{◌≡◌, [], true, ◌+◌, ◌*◌, ◌≤◌, ◌<◌, min, max, length, replicate, get_or, set};
ghost use Rattle.answers.specs.Answer.{broken};
ghost use Rattle.timeline.specs.Design.{leaf};
ghost use Rattle.timeline.specs.Rules.{SourceRange};
ghost use Rattle.entry.specs.Records.{component, instance, invocation, argument, connection};
ghost use Rattle.reading.specs.Reader.{reads, tests, part_tests, source_tests};
ghost use Rattle.reading.specs.Reads.{Ranged};
ghost use Rattle.records.specs.Says.{says, source, port, class};
ghost use Rattle.rules.specs.Failed.{first_failed};
ghost use Rattle.rules.specs.Calls.{no_look};
ghost use Rattle.look.specs.Look.{look};
ghost use Rattle.reader.specs.Rows.{signature, row, row_in, put_row, none};
ghost use Rattle.reader.specs.State.{state, after, fresh, before, begin, viewed, bare, own_row, opened, named, is_component, Few, Turned};
ghost use Rattle.reader.specs.Noted.{Near, Noted};
ghost use Rattle.reader.specs.Alike.{allowed_tests, port_tests};
ghost use Rattle.reader.specs.Earlier.{earlier};

use answers::Fault;
use order::Place;
use records::{Class, Port, Record, Source};
use signatures::Signature;

// Of the component that is being read; and while an argument is due, the record of the input that it feeds and the invocation's offset.
// Machine words: with sixteen-bit fields judging takes a quarter more instructions (docs/DECISIONS.md, "The verdict").
// `Few` is in the contracts and not in the type: `opened` makes a reader of any component's number and asks nothing of it, and with
// `Few` in the type it would have to ask that the number is below 64.
#[derive(Clone, Copy)]
pub struct Reader {
    pub place: Place,
    pub delay: usize,
    pub number: usize,
    pub first: usize,
    pub input: usize,
    pub offset: usize,
}

// Row c of a table, five numbers to a row: whatever is above the verdict passes the rows on as one array by value
// (docs/DECISIONS.md, "The lent table").
#[tactic(auto, unfolding(crate::specs::Rows::row_in))]
pub fn row_of(rows: &[u16], c: usize) -> Signature
    requires { 5 * c + 5 ≤ length rows.now }
    ensures { row result ≡ row_in rows.now c }
{
    let at = 5 * c;
    Signature {
        class: rows[at],
        delay: rows[at + 1],
        inputs: rows[at + 2],
        outputs: rows[at + 3],
        first: rows[at + 4],
    }
}

#[tactic(auto, unfolding(crate::specs::Rows::put_row))]
pub fn put_row(rows: &mut [u16], c: usize, s: Signature)
    requires { 5 * c + 5 ≤ length rows.old }
    ensures { rows.new ≡ put_row rows.old c s }
{
    let at = 5 * c;
    rows[at] = s.class;
    rows[at + 1] = s.delay;
    rows[at + 2] = s.inputs;
    rows[at + 3] = s.outputs;
    rows[at + 4] = s.first;
}

// What is kept of the invocations beside the reader: of each its instance, its offset, how many outputs it has and the record of the first
// of them; and of each instance what the offsets of its invocations lie between.
// Instances and offsets are arrays of numbers and not one of structs, since all places are asked, and only so does the compiler ask
// several at once, sixteen bits wide (docs/DECISIONS.md, "Bounds before pairs"). For the same reason 65,535 names no instance, and there
// is no `Option`: it would be wider. The other four stand as arrays beside them, since the definitions (`state`, `Noted`) speak of each
// as a list of its own, so that structs would be taken apart there again: no plainer.
#[derive(Clone, Copy)]
pub struct Invocations {
    pub instances: [u16; 64],
    pub offsets: [u16; 64],
    pub outputs: [u16; 64],
    pub firsts: [u32; 64],
    pub least: [u16; 32],
    pub greatest: [u16; 32],
}

impl Invocations {
    // Of no invocation yet; its instance is none.
    pub fn none() -> Invocations
        ensures { result ≡ record { instances = replicate 64 65535; offsets = replicate 64 0; outputs = replicate 64 0; firsts = replicate 64 0; least = replicate 32 65535; greatest = replicate 32 0 } }
    {
        Invocations {
            instances: [65535; 64],
            offsets: [0; 64],
            outputs: [0; 64],
            firsts: [0; 64],
            least: [65535; 32],
            greatest: [0; 32],
        }
    }

    // One more, number j: its instance n, its offset k, and the row v of the component that it invokes.
    fn note(&mut self, j: usize, n: u16, k: u16, v: Signature)
        requires { (j < 64) × (n < 32) }
        ensures { self.new ≡ record { instances = set self.old.instances j n; offsets = set self.old.offsets j k; outputs = set self.old.outputs j v.outputs; firsts = set self.old.firsts j (v.first + 1 + v.inputs); least = set self.old.least n (min (get_or self.old.least n 0) k); greatest = set self.old.greatest n (max (get_or self.old.greatest n 0) k) } }
    {
        let at = usize::from(n);
        self.instances[j] = n;
        self.offsets[j] = k;
        self.greatest[at] = self.greatest[at].max(k);
        self.least[at] = self.least[at].min(k);
        self.outputs[j] = v.outputs;
        self.firsts[j] = u32::from(v.first) + 1 + u32::from(v.inputs);
    }
}

// 5 and 6 of a record: whether it may stand here, and whether there is room for one more of its kind.
fn allowed(may: bool, room: bool) -> Result<(), Fault>
    ensures { broken result ≡ first_failed (allowed_tests may room) }
{
    if !may {
        return Err(Fault::Place);
    }
    if !room {
        return Err(Fault::TooMany);
    }
    Ok(())
}

impl Reader {
    // 5 and 6 of a component record.
    fn component_refusal(self) -> Result<(), Fault>
        requires { Few self }
        ensures { broken result ≡ first_failed (tests no_look (reads (bare self)) (component leaf 0)) }
    {
        allowed(self.place.may_end(), self.number + 1 < 64)
    }

    // 5, 6 and 9 of an input or an output.
    fn port_refusal(self, may: bool, room: bool, p: Port) -> Result<(), Fault>
        requires { Few self }
        ensures { broken result ≡ first_failed (port_tests may room self.delay (port p)) }
    {
        allowed(may, room)?;
        if !rules::interval_kept(p, self.delay as u16) {
            return Err(Fault::Interval);
        }
        Ok(())
    }

    // c: the component that it is an instance of.
    fn instance_refusal(self, c: u16) -> Result<(), Fault>
        ensures { broken result ≡ first_failed (part_tests no_look (bare self) (instance c)) }
    {
        allowed(self.place.may_instance(), self.place.room_for_instance())?;
        if self.number <= usize::from(c) {
            return Err(Fault::Reference);
        }
        Ok(())
    }

    // n: its instance. k: its offset. v: the row of the component that it invokes.
    fn invocation_refusal(
        self,
        n: u16,
        k: u16,
        v: Signature,
        kept: &Invocations,
    ) -> Result<(), Fault>
        requires { Few self × (n < 32) × (k < 1024) × Noted self kept.now.instances kept.now.offsets kept.now.firsts kept.now.least kept.now.greatest }
        ensures { broken result ≡ first_failed (part_tests no_look (viewed none (state self (λ m. row v) kept.now.instances kept.now.offsets [] [])) (invocation (record { instance = n; offset = k }))) }
    {
        allowed(
            self.place.may_invocation(),
            self.place.room_for_invocation(),
        )?;
        let at = usize::from(n);
        let comes = rules::Invocation {
            instance: n,
            offset: k,
            delay: v.delay,
            instances: &kept.instances,
            offsets: &kept.offsets,
            count: self.place.invocations,
            least: kept.least[at],
            greatest: kept.greatest[at],
        };
        comes.refusal(self.place.instances, self.delay as u16)
    }
}

// What a source is judged by: the file, the reader and what is kept of the invocations.
#[derive(Clone, Copy)]
struct Before<'a> {
    file: &'a [u8],
    reader: Reader,
    kept: &'a Invocations,
    ghost whole: { 24 ≤ length file.now },
    ghost few: { Few reader },
    ghost near: { Near kept.now.firsts },
}

impl Before<'_> {
    // 7, 8 and 12 of a source, of invocations before number `before`, that is read at port q, its event at cycle k.
    fn source_refusal(self, before: usize, x: Source, q: Port, k: u16) -> Result<(), Fault>
        requires { SourceRange (source x) }
        ensures { broken result ≡ first_failed (source_tests (look self.entry.file.now) (earlier self.entry.reader self.entry.kept.now) before (source x) (port q) k) }
    {
        let file = self.file;
        match x {
            Source::Own(i) => {
                if self.reader.place.inputs <= usize::from(i) {
                    return Err(Fault::Reference);
                }
                let p = look::port_in(file, self.reader.first + 1 + usize::from(i));
                rules::fed_refusal(p, 0, q, k)
            }
            Source::Output(j, o) => {
                let at = usize::from(j);
                let kept = self.kept;
                if before <= at || kept.outputs[at] <= o {
                    return Err(Fault::Reference);
                }
                let p = look::port_in(file, kept.firsts[at] as usize + usize::from(o));
                rules::fed_refusal(p, kept.offsets[at], q, k)
            }
            Source::Constant(v) => rules::constant_refusal(v, q),
        }
    }

    fn argument_refusal(self, x: Source) -> Result<(), Fault>
        requires { (SourceRange (source x)) × (self.reader.input < 1048576) × (0 < self.reader.place.due → self.reader.place.built ≡ true) }
        ensures { broken result ≡ first_failed (part_tests (look self.entry.file.now) (earlier self.entry.reader self.entry.kept.now) (argument (source x))) }
    {
        let file = self.file;
        if !self.reader.place.may_argument() {
            return Err(Fault::Place);
        }
        let q = look::port_in(file, self.reader.input);
        let before = self.reader.place.invocations.saturating_sub(1);
        self.source_refusal(before, x, q, self.reader.offset as u16)
    }

    fn connection_refusal(self, x: Source) -> Result<(), Fault>
        requires { SourceRange (source x) }
        ensures { broken result ≡ first_failed (part_tests (look self.entry.file.now) (earlier self.entry.reader self.entry.kept.now) (connection (source x))) }
    {
        let file = self.file;
        let place = self.reader.place;
        if !place.may_connection() {
            return Err(Fault::Place);
        }
        let q = look::port_in(
            file,
            self.reader.first + 1 + place.inputs + place.connections,
        );
        self.source_refusal(place.invocations, x, q, 0)
    }
}

// The instance that a record names, 0 for none.
pub fn named(x: Record) -> usize
    requires { Ranged (says x) }
    ensures { (result ≡ named (says x)) × (result < 32) }
{
    match x {
        Record::Invocation(n, _) => usize::from(n),
        _ => 0,
    }
}

// Whether a component begins, and so the one before ends.
pub fn is_component(x: Record) -> bool
    ensures { result ≡ is_component (says x) }
{
    matches!(x, Record::Component(_, _))
}

// The row of the component that has been read.
#[tactic(auto, unfolding(crate::specs::Rows::signature))]
pub fn own_row(r: Reader) -> Signature
    requires { Few r }
    ensures { result ≡ signature (own_row (fresh r)) }
{
    Signature {
        class: u16::from(r.place.built),
        delay: r.delay as u16,
        inputs: r.place.inputs as u16,
        outputs: r.place.outputs as u16,
        first: r.first as u16,
    }
}

// A component begins.
#[tactic(auto, unfolding(reading::specs::Tests::is_built))]
fn begin(k: Class, delay: u16, first: u16, number: usize) -> Reader
    ensures { fresh result ≡ begin (class k) delay first number }
{
    Reader {
        place: order::begun(matches!(k, Class::Built)),
        delay: usize::from(delay),
        first: usize::from(first),
        number,
        input: 0,
        offset: 0,
    }
}

// Record number p. v: the row of the instance that it names. A component record is looked at only for its refusal.
pub fn turn(
    file: &[u8],
    r: Reader,
    x: Record,
    p: u16,
    v: Signature,
    kept: &mut Invocations,
) -> Result<Reader, Fault>
    requires { Ranged (says x) × Few r × (r.input ≤ 65536 + p) × (24 ≤ length file.now) × Noted r kept.old.instances kept.old.offsets kept.old.firsts kept.old.least kept.old.greatest }
    ensures { Noted (after r result) kept.new.instances kept.new.offsets kept.new.firsts kept.new.least kept.new.greatest × Turned (look file.now) (state r (λ m. row v) kept.old.instances kept.old.offsets kept.old.outputs kept.old.firsts) p (says x) (broken result) (state (after r result) (λ m. row v) kept.new.instances kept.new.offsets kept.new.outputs kept.new.firsts) }
{
    let place = r.place;
    match x {
        Record::Component(_, _) => {
            r.component_refusal()?;
            Ok(r)
        }
        Record::Input(q) => {
            r.port_refusal(place.may_input(), place.room_for_input(), q)?;
            Ok(Reader {
                place: place.input(),
                ..r
            })
        }
        Record::Output(q) => {
            r.port_refusal(place.may_output(), place.room_for_output(), q)?;
            Ok(Reader {
                place: place.output(),
                ..r
            })
        }
        Record::Instance(c) => {
            r.instance_refusal(c)?;
            Ok(Reader {
                place: place.instance(),
                ..r
            })
        }
        Record::Invocation(n, k) => {
            r.invocation_refusal(n, k, v, kept)?;
            kept.note(place.invocations, n, k, v);
            Ok(Reader {
                place: place.invocation(usize::from(v.inputs)),
                input: usize::from(v.first) + 1,
                offset: usize::from(k),
                ..r
            })
        }
        Record::Argument(a) => {
            Before {
                file,
                reader: r,
                kept,
            }
            .argument_refusal(a.source)?;
            Ok(Reader {
                place: place.argument(),
                input: r.input + 1,
                ..r
            })
        }
        Record::Connection(s) => {
            Before {
                file,
                reader: r,
                kept,
            }
            .connection_refusal(s)?;
            Ok(Reader {
                place: place.connection(),
                ..r
            })
        }
        Record::Wrong => Err(Fault::Record),
    }
}

// What is kept before the first record.
pub fn start() -> Reader
    ensures { fresh result ≡ before }
{
    Reader {
        place: order::closed(),
        delay: 0,
        number: 0,
        first: 0,
        input: 0,
        offset: 0,
    }
}

// What is kept after component record p, which begins component c.
pub fn opened(x: Record, p: u16, c: usize) -> Reader
    ensures { fresh result ≡ opened (says x) p c }
{
    match x {
        Record::Component(k, d) => begin(k, d, p, c),
        _ => begin(Class::Leaf, 0, p, c),
    }
}
