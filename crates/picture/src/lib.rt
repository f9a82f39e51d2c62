// A component's timetable as a picture: the lines of its own inputs, of its instances, and of its own outputs.
// It goes by the records alone, so that a refused design is drawn too. (docs/TEXT.md)
// Here any writer takes it, and may refuse; `output` has the same for an output, which takes every text.
#![tactic(auto)]

ghost use Rattle.std.specs.Prelude.{◌≡◌, IfOk, is_some};
ghost use Rattle.parts.specs.Parts as Parts;

mod output;

use cells::Line;
pub use output::{print_components, print_svg};
use page::{Count, Label, Page, Row, Sheet, Svg, Text, View};
use parts::{Component, Interval, Kind, List};
use records::Class;
use std::fmt;
use uses::Uses;

// The lines of an instance's inputs or outputs, of which there are at most 16; it is made of this component.
fn port_rows<S: Sheet, W: fmt::Write>(
    page: &mut Page<S>,
    out: &mut W,
    uses: &Uses<'_>,
    instance: u16,
    made: Component<'_>,
    kind: Kind,
) -> fmt::Result {
    for n in 0..16 {
        let Some(port) = made.port(kind, n) else {
            break;
        };
        let there = if kind == Kind::Input {
            uses.arguments(instance, n)
        } else {
            [Interval::ALWAYS; 64]
        };
        let row = Row {
            line: Line {
                instance,
                start: port.start,
                end: port.end,
                delay: uses.component.delay,
            },
            own: false,
            uses: &uses.invocations,
            there: &there,
        };
        page.row(out, Label::Of(usize::from(instance), kind, n), row)?;
    }
    Ok(())
}

// The lines of one instance.
fn instance_rows<S: Sheet, W: fmt::Write>(
    page: &mut Page<S>,
    out: &mut W,
    uses: &Uses<'_>,
    instance: u16,
) -> fmt::Result {
    let component = uses.component;
    let Some(made) = component.named(usize::from(instance)) else {
        return page.note(out, Label::Unnamed(usize::from(instance)));
    };
    if !uses.invoke(instance) {
        return page.note(out, Label::Unused(usize::from(instance)));
    }
    let busy = Row {
        line: Line {
            instance,
            start: 0,
            end: made.delay,
            delay: component.delay,
        },
        own: false,
        uses: &uses.invocations,
        there: &[],
    };
    page.row(out, Label::Busy(usize::from(instance)), busy)?;
    port_rows(page, out, uses, instance, made, Kind::Input)?;
    port_rows(page, out, uses, instance, made, Kind::Output)
}

// The lines of the component's own inputs or outputs, of which there are at most 16: each is used once, at the start.
// It stands beside `port_rows`, since the line, its uses, its label and what is read there all differ: one function would take each.
fn own_rows<S: Sheet, W: fmt::Write>(
    page: &mut Page<S>,
    out: &mut W,
    component: Component<'_>,
    kind: Kind,
) -> fmt::Result {
    for n in 0..16 {
        let Some(port) = component.port(kind, n) else {
            break;
        };
        let there = if kind == Kind::Output {
            component.connected(n)
        } else {
            Interval::ALWAYS
        };
        let row = Row {
            line: Line {
                instance: 0,
                start: port.start,
                end: port.end,
                delay: component.delay,
            },
            own: true,
            uses: &[Some(uses::once())],
            there: &[there],
        };
        page.row(out, Label::Own(kind, n), row)?;
    }
    Ok(())
}

// All lines; of the instances the first 32.
fn rows<S: Sheet, W: fmt::Write>(page: &mut Page<S>, out: &mut W, uses: &Uses<'_>) -> fmt::Result {
    let component = uses.component;
    own_rows(page, out, component, Kind::Input)?;
    for instance in (0..32).take(component.count(Kind::Instance)) {
        instance_rows(page, out, uses, instance)?;
    }
    own_rows(page, out, component, Kind::Output)
}

fn empty<S: Drop>(sheet: S, view: View) -> Page<S> {
    Page {
        sheet,
        view,
        lines: 0,
    }
}

// The picture of component c on such a sheet, drawn once before, so that its lines are counted.
fn picture<S: Sheet, W: fmt::Write>(
    out: &mut W,
    sheet: S,
    component: Component<'_>,
    c: usize,
) -> fmt::Result {
    let uses = Uses::of(component);
    let view = View {
        component: c,
        delay: usize::from(component.delay),
        cycles: usize::from(uses.cycles()),
    };
    let mut counted = empty(Count, view);
    rows(&mut counted, out, &uses)?;
    let mut page = empty(sheet, view);
    page.open(out, counted.lines.min(65535) as u16)?;
    rows(&mut page, out, &uses)?;
    page.close(out)
}

// The pictures of all built components, in text.
pub fn components<W: fmt::Write>(out: &mut W, list: &[u8]) -> fmt::Result {
    let list = List::of(list);
    let all = (0..list.len()).filter_map(|i| list.component_at(i));
    for (c, component) in all.enumerate() {
        if matches!(component.class, Class::Built) {
            picture(out, Text, component, c)?;
        }
    }
    Ok(())
}

// The picture of component c as SVG; whether there is such a component.
pub fn svg<W: fmt::Write>(out: &mut W, list: &[u8], c: usize) -> Result<bool, fmt::Error>
    ensures { IfOk result (λ there. there ≡ is_some (Parts.component (Parts.records list.now) c)) }
{
    let Some(component) = List::of(list).component(c) else {
        return Ok(false);
    };
    picture(out, Svg, component, c)?;
    Ok(true)
}
