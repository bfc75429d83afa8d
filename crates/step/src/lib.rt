// One step from a state: an event's answer and the state afterwards, what a look shows, and what is told to whatever is asked.
#![tactic(auto)]

ghost use Rattle.std.specs.Prelude.{◌≡◌};
ghost use Rattle.rules.specs.Events.{window_happens, happens};
ghost use Rattle.rules.specs.Answers.{stepped};
ghost use Rattle.asked.specs.Asked.{sight_of, response_of, shown_says, replied};

use answer::{Answer, Refusal, Stepped};
use asked::{Asked, Look, Replied, Shown, Told};
use rules::{Event, State, WindowEvent};

// ---- what happens

#[tactic(auto, unfolding(rules::specs::Events::window_happens))]
fn window_step(s: State, e: WindowEvent) -> Stepped<State>
    ensures { stepped result ≡ window_happens e s }
{
    match e {
        WindowEvent::WindowRead(o, l) => Stepped {
            answer: mmio::read(s, o, l),
            state: s,
        },
        WindowEvent::WindowWrite(o, l, v) => mmio::write(s, o, l, v),
        WindowEvent::Complete(m) => mmio_host::complete(s, m),
        WindowEvent::Fault(v) => mmio_host::fault(s, v),
        WindowEvent::AddCycles(n) => Stepped {
            answer: Ok(None),
            state: mmio_host::add_cycles(s, n),
        },
        WindowEvent::MirrorUpdate(o, m, v) => mmio_host::mirror_update(s, o, m, v),
    }
}

#[tactic(auto, unfolding(rules::specs::Events::happens))]
pub fn step(s: State, e: Event) -> Stepped<State>
    ensures { stepped result ≡ happens e s }
{
    match e {
        Event::Read(o, l) => Stepped {
            answer: twin::read(s, o, l),
            state: s,
        },
        Event::Write(o, l, v) => twin::write(s, o, l, v),
        Event::PortRead(p, w) => Stepped {
            answer: ports::port_read(s, p, w),
            state: s,
        },
        Event::PortWrite(p, w, v) => ports::port_write(s, p, w, v),
        Event::HostUpdate(o, m, v) => twin::host_update(s, o, m, v),
        Event::EndSignal => Stepped {
            answer: Ok(None),
            state: twin::end_signal(s),
        },
        Event::PlatformReset => Stepped {
            answer: Ok(None),
            state: twin::platform_reset(s),
        },
        Event::InWindow(w) => window_step(s, w),
    }
}

// ---- what is there

// The walk goes over the bytes as a guest reads them.
fn item(s: State, want: u8) -> Shown
    ensures { shown_says result ≡ sight_of (Look.Walk want) s }
{
    let m = twin::image(s);
    let w = walk::walk(&m, want);
    let f = w.found;
    Shown::Item(f, w.count)
}

pub fn look(s: State, k: Look) -> Shown
    ensures { shown_says result ≡ sight_of k s }
{
    match k {
        Look::Memory(a) => Shown::Claimed(claims::claim_memory(s, a)),
        Look::Port(p) => Shown::Claimed(claims::claim_port(s, p)),
        Look::Probe(a, b) => Shown::Range(probe::probe(a, b)),
        Look::Walk(i) => item(s, i),
    }
}

// ---- whatever is asked

pub fn ask(s: State, q: Option<Asked>) -> Replied
    ensures { replied result ≡ response_of q s }
{
    match q {
        Some(Asked::Event(e)) => {
            let r = step(s, e);
            let a = r.answer;
            let t = r.state;
            Replied {
                told: Told::Answer(a),
                state: t,
            }
        }
        Some(Asked::Look(k)) => Replied {
            told: Told::Shown(look(s, k)),
            state: s,
        },
        None => Replied {
            told: Told::Answer(Err(Refusal::Line)),
            state: s,
        },
    }
}
