// The same on an output, which takes every text; so does `show` draw. It stands beside the other since there an answer is tested after
// each line: with one text for both, `show` takes more instructions.
ghost use Rattle.std.specs.Prelude.{◌≡◌, is_some};
ghost use Rattle.parts.specs.Parts as Parts;

use crate::empty;
use cells::Line;
use page::{Count, Label, Page, Row, Surface, Svg, Text, View};
use parts::{Component, Interval, Kind, List};
use pieces::Output;
use records::Class;
use uses::Uses;

// The lines of an instance's inputs or outputs, of which there are at most 16; it is made of this component.
fn port_rows<S: Surface>(
    page: &mut Page<S>,
    out: &mut Output,
    uses: &Uses<'_>,
    instance: u16,
    made: Component<'_>,
    kind: Kind,
) {
    for n in 0..16 {
        let Some(port) = made.port(kind, n) else {
            break;
        };
        let there = if kind == Kind::Input {
            uses.arguments(instance, n)
        } else {
            [Interval::ALWAYS; 64]
        };
        let row = Row {
            line: Line {
                instance,
                start: port.start,
                end: port.end,
                delay: uses.component.delay,
            },
            own: false,
            uses: &uses.invocations,
            there: &there,
        };
        page.print_row(out, Label::Of(usize::from(instance), kind, n), row);
    }
}

// The lines of one instance.
fn instance_rows<S: Surface>(page: &mut Page<S>, out: &mut Output, uses: &Uses<'_>, instance: u16) {
    let component = uses.component;
    let Some(made) = component.named(usize::from(instance)) else {
        return page.print_note(out, Label::Unnamed(usize::from(instance)));
    };
    if !uses.invoke(instance) {
        return page.print_note(out, Label::Unused(usize::from(instance)));
    }
    let busy = Row {
        line: Line {
            instance,
            start: 0,
            end: made.delay,
            delay: component.delay,
        },
        own: false,
        uses: &uses.invocations,
        there: &[],
    };
    page.print_row(out, Label::Busy(usize::from(instance)), busy);
    port_rows(page, out, uses, instance, made, Kind::Input);
    port_rows(page, out, uses, instance, made, Kind::Output);
}

// The lines of the component's own inputs or outputs, of which there are at most 16: each is used once, at the start.
// It stands beside `port_rows`, since the line, its uses, its label and what is read there all differ: one function would take each.
fn own_rows<S: Surface>(
    page: &mut Page<S>,
    out: &mut Output,
    component: Component<'_>,
    kind: Kind,
) {
    for n in 0..16 {
        let Some(port) = component.port(kind, n) else {
            break;
        };
        let there = if kind == Kind::Output {
            component.connected(n)
        } else {
            Interval::ALWAYS
        };
        let row = Row {
            line: Line {
                instance: 0,
                start: port.start,
                end: port.end,
                delay: component.delay,
            },
            own: true,
            uses: &[Some(uses::once())],
            there: &[there],
        };
        page.print_row(out, Label::Own(kind, n), row);
    }
}

// All lines; of the instances the first 32.
fn rows<S: Surface>(page: &mut Page<S>, out: &mut Output, uses: &Uses<'_>) {
    let component = uses.component;
    own_rows(page, out, component, Kind::Input);
    for instance in (0..32).take(component.count(Kind::Instance)) {
        instance_rows(page, out, uses, instance);
    }
    own_rows(page, out, component, Kind::Output);
}

// The picture of component c on such a sheet, drawn once before, so that its lines are counted.
fn picture<S: Surface>(out: &mut Output, sheet: S, component: Component<'_>, c: usize) {
    let uses = Uses::of(component);
    let view = View {
        component: c,
        delay: usize::from(component.delay),
        cycles: usize::from(uses.cycles()),
    };
    let mut counted = empty(Count, view);
    rows(&mut counted, out, &uses);
    let mut page = empty(sheet, view);
    page.print_open(out, counted.lines);
    rows(&mut page, out, &uses);
    page.print_close(out);
}

// The pictures of all built components, in text.
pub fn print_components(out: &mut Output, list: &[u8]) {
    let list = List::of(list);
    let all = (0..list.len()).filter_map(|i| list.component_at(i));
    for (c, component) in all.enumerate() {
        if matches!(component.class, Class::Built) {
            picture(out, Text, component, c);
        }
    }
}

// The picture of component c as SVG; whether there is such a component.
pub fn print_svg(out: &mut Output, list: &[u8], c: usize) -> bool
    ensures { result ≡ is_some (Parts.component (Parts.records list.now) c) }
{
    let Some(component) = List::of(list).component(c) else {
        return false;
    };
    picture(out, Svg, component, c);
    true
}
