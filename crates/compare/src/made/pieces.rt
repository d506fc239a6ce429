// The pieces of a transfer, each put down after what a recording has.
use crate::entry::Entry;
use crate::made::draft;
use crate::made::manner::Manner;
use std::ops::RangeInclusive;

// The recording, and the manner of what comes next.
#[derive(Drop)]
pub(crate) struct Pen<'a> {
    pub file: &'a mut [u8],
    pub manner: Manner,
}

impl Pen<'_> {
    pub(crate) fn draw(&mut self) {
        self.manner = self.manner.next();
    }

    // How many ticks there are so far.
    pub(crate) fn total(&self) -> u32 {
        draft::total(self.file)
    }

    // The writer's time or, where something is drawn, one that the two parties' own rules allow; where they give no end, up
    // to some number.
    fn ticks(&self, plain: u32, drawn: RangeInclusive<u32>) -> u32 {
        match self.manner.random {
            Some(random) => random.within(drawn),
            None => plain,
        }
    }

    // So many ticks with the same lines.
    fn put(&mut self, plain: u32, drawn: RangeInclusive<u32>, lines: u8) {
        self.draw();
        let ticks = self.ticks(plain, drawn);
        self.put_ticks(ticks, lines);
    }

    // So many ticks with the same lines: where something is drawn, or ATN turns round, in two neighbouring steps.
    pub(crate) fn put_ticks(&mut self, ticks: u32, lines: u8) {
        self.draw();
        let begin = self.total();
        let first = self.manner.step_end(begin, ticks);
        draft::add(self.file, first, self.manner.lines(begin, lines));
        self.draw();
        let middle = begin.wrapping_add(first);
        draft::add(self.file, ticks - first, self.manner.lines(middle, lines));
    }

    // The sender pulls CLK from tick 0, and the receiver takes DATA.
    pub(crate) fn put_start(&mut self) {
        self.put(0, 0..=256, draft::CLK);
        self.put(200, 1..=400, draft::BOTH);
    }

    // What leads to a byte's bits: the sender is ready to send, and both let go. With the end mark the acknowledgement
    // comes in between.
    pub(crate) fn put_lead(&mut self, has_end_mark: bool) {
        self.put(50, 1..=400, draft::DATA);
        if has_end_mark {
            self.put(220, 200..=290, 0);
            self.put(80, 60..=150, draft::DATA);
            self.put(40, 1..=60, 0);
        } else {
            self.put(60, 1..=199, 0);
        }
    }

    // Eight bits, least significant first, pulled is one.
    pub(crate) fn put_bits(&mut self, value: u8) {
        for bit in 0..8u32 {
            self.put_bit((value >> bit) % 2 * draft::DATA);
        }
    }

    // DATA is free before the last set-up tick, so a drawn set-up shows anything for some ticks first.
    fn put_bit(&mut self, data: u8) {
        self.draw();
        let ticks = self.ticks(70, 1..=200);
        self.draw();
        let free = self.manner.below(ticks);
        let shown = self
            .manner
            .random
            .map_or(0, |random| (random.state % 2) as u8 * draft::DATA);
        self.put_ticks(free, draft::CLK | shown);
        self.put_ticks(ticks - free, draft::CLK | data);
        self.put(60, 20..=200, data);
    }

    // What follows the last byte's hold. Gives the finish tick.
    pub(crate) fn put_end(&mut self, entry: Entry) -> u32 {
        match entry {
            Entry::Plain => self.put_silence(),
            Entry::Command => self.put_finish(),
        }
    }

    // The last letting go: CLK is released, the receiver lets go, and nobody pulls anything from there on.
    fn put_silence(&mut self) -> u32 {
        self.put(50, 1..=400, draft::DATA);
        let finish = self.total();
        self.put(100, 1..=400, 0);
        finish
    }

    // ATN is released while both still hold their lines, and what CLK and DATA show after that tick is free: where nothing
    // is drawn as many steps and ticks as the end mark and the end of data have more.
    fn put_finish(&mut self) -> u32 {
        let finish = self.total();
        self.manner.more = 0;
        self.put(1, 1..=1, draft::BOTH);
        self.manner.free = draft::ALL_BUT_ATN;
        self.put(279, 0..=400, draft::BOTH);
        self.put(100, 0..=400, draft::DATA);
        self.put(50, 0..=400, draft::CLK);
        finish
    }
}
