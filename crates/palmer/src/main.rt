// The program: one Z a line from standard input into a fresh run, and at the end a row for each month, or the one
// line that says which line was refused. `palmer_input` reads, `palmer_output` lays out; here bytes are only moved. Standard
// error has a refusal in words, by `words`.
#![tactic(auto)]

use palmer_input::Heard;
use palmer_output::{MOST_LINES, ROOM};
use quoted::Start;
use records::NUMBERS;
use stdio::Reads;

// What the input is read into: what the program holds of it, and the start of the line that the reading has come to.
#[derive(Drop)]
struct Reading {
    heard: Heard<MOST_LINES>,
    start: Start,
}

impl Reading {
    // The line that was refused.
    fn line_at_fault(&self) -> Option<u32> {
        let months = self.heard.session.run.months;
        self.heard
            .session
            .refused
            .map(|_| palmer_output::line_after(months))
    }
}

impl Reads for Reading {
    ghost holds = { λ _. Unit {0} };

    fn take(&mut self, piece: &[u8]) -> bool {
        self.heard.take(piece);
        let fault = self.line_at_fault();
        self.start = quoted::heed(self.start, fault, piece);
        fault.is_none()
    }
}

// Writes what comes of the input: the rows, or which line was refused, and then also why.
fn print(stdout: &impl Print, stderr: &impl Print, reading: &Reading) {
    let mut out = rows::make_room::<ROOM>();
    let end = palmer_output::put_heard(&reading.heard, &mut out);
    stdio::write_out(stdout, stderr, b"palmer", &out[..end]);
    let session = reading.heard.session;
    if let Some(refusal) = session.refused {
        words::explain(
            stderr,
            palmer_output::line_after(session.run.months),
            refusal.number(),
            &reading.start,
        );
    }
}

fn main(rt: HostRuntime) {
    let mut reading = Reading {
        heard: Heard {
            session: palmer_input::begin(),
            x1: [0; MOST_LINES],
            x2: [0; MOST_LINES],
            x3: [0; MOST_LINES],
            index: [0; MOST_LINES],
            mark: [0; MOST_LINES],
            records: [[0; NUMBERS]; MOST_LINES],
            v: [0; MOST_LINES],
            percent: [0; MOST_LINES],
        },
        start: quoted::begin(),
    };
    let stderr = rt.stderr();
    if stdio::read_all(&mut rt.stdin(), &mut reading).is_err() {
        stdio::say_unread(&stderr, b"palmer");
        return;
    }
    reading.heard.end();
    print(&rt.stdout(), &stderr, &reading);
}
