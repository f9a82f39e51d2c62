// A text, line by line, into the list of the records that its lines say.
#![tactic(auto)]

ghost use Rattle.std.specs.Prelude.{IfOk, OnOk, OnErr, [], ◌≡◌, ◌<◌, ◌⊎◌};
ghost use Rattle.arrayvec.specs.ArrayVec.{array_vec_len};
ghost use Rattle.assembly.specs.Fed.{reached, closed, taken, fed, Grown, MayRefuse, Stopped, said_by};

use arrayvec::ArrayVec;
use places::Place;
use text::Expected;

// How far a text has been read.
#[derive(Clone, Drop)]
pub struct Assembly {
    // the number of the present line, from 1, and its bytes so far
    pub line: u32,
    pub present: ArrayVec<u8, 4096>,
    // the records that the lines before it say, and the place behind them
    pub list: ArrayVec<u8, 63488>,
    pub place: Place,
}

impl Assembly {
    pub fn new() -> Assembly
        ensures { (result.line ≡ 1) × (result.present.items ≡ []) × (result.list.items ≡ []) }
    {
        Assembly {
            line: 1,
            present: ArrayVec::new(),
            list: ArrayVec::new(),
            place: Place::first(),
        }
    }

    // The record that the present line says is put behind those of the lines before it.
    #[tactic(auto, using(crate::proofs::Steps::says_one, crate::proofs::Steps::grown_none, crate::proofs::Steps::grown_by))]
    fn close(&mut self) -> Result<(), Expected>
        ensures ok { OnOk result (reached self.new ≡ closed (reached self.old)) }
        ensures err { OnErr result (self.new ≡ self.old) }
        ensures word { OnErr result (said_by self.old.present.items ≡ 16) }
        ensures grown { Grown self.old.list.items self.new.list.items }
    {
        if let Some(record) = sentence::read(self.present.as_slice(), self.place)? {
            self.list
                .try_extend_from_slice(&record)
                .map_err(|_| Expected::Fewer)?;
            self.place = self.place.after(records::decode(&record));
        }
        Ok(())
    }

    // One byte more of the text.
    #[tactic(auto, using(crate::proofs::Steps::line_end, crate::proofs::Steps::letter_more, crate::proofs::Steps::line_refused, crate::proofs::Steps::letter_refused, crate::proofs::Steps::grown_none))]
    fn take(&mut self, b: u8) -> Result<(), Expected>
        ensures ok { OnOk result (reached self.new ≡ taken (reached self.old) b) }
        ensures err { OnErr result (self.new ≡ self.old) }
        ensures refused { OnErr result (MayRefuse (reached self.old) b) }
        ensures grown { Grown self.old.list.items self.new.list.items }
    {
        if b == b'\n' {
            self.close()?;
            self.present.clear();
            self.line = self.line.saturating_add(1);
            return Ok(());
        }
        self.present.try_push(b).map_err(|_| Expected::Line)
    }

    // The next bytes of the text. Whole lines are read, and the rest is kept.
    #[tactic(auto, using(crate::proofs::Steps::fed_none, crate::proofs::Steps::fed_more, crate::proofs::Steps::fed_all, crate::proofs::Steps::stopped_at, crate::proofs::Steps::grown_none, crate::proofs::Steps::grown_more))]
    pub fn feed(&mut self, chunk: &[u8]) -> Result<(), Expected>
        ensures ok { OnOk result (reached self.new ≡ fed (reached self.old) chunk.now) }
        ensures err { OnErr result (Stopped (reached self.old) chunk.now (reached self.new)) }
        ensures grown { Grown self.old.list.items self.new.list.items }
    {
        for b in chunk {
            self.take(*b)?;
        }
        Ok(())
    }

    // The end of the text: the last line may lack its line end, and there is a record.
    pub fn end(&mut self) -> Result<(), Expected>
        ensures some { IfOk result (λ _. 0 < array_vec_len self.new.list) }
        ensures ok { OnOk result (reached self.new ≡ closed (reached self.old)) }
        ensures err { OnErr result (reached self.new ≡ reached self.old) }
        ensures refused { OnErr result ((said_by self.old.present.items ≡ 16) ⊎ (array_vec_len self.old.list ≡ 0)) }
        ensures grown { Grown self.old.list.items self.new.list.items }
    {
        self.close()?;
        if self.list.is_empty() {
            return Err(Expected::Some);
        }
        Ok(())
    }
}
