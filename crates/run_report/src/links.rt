ghost use Rattle.std.specs.Prelude.{◌≡◌, ◌++◌, OnOk};
ghost use Rattle.std.specs.String.{string_bytes};
ghost use Rattle.std.specs.List.{flat_map};
ghost use Rattle.run_report.specs.CallNumbers.{number_in};
ghost use Rattle.run_report.specs.ReportText.{sent_line, fate_text, got_line, numbered_lines, sent_lines, got_lines};

use crate::call_index::CallIndex;
use crate::lines::Lines;
use script_session::{GotFate, GotRow, LinkLog, SentRow};
use std::alloc::AllocError;

impl Lines {
    /// Adds what was sent to each node.
    pub fn put_sent(&mut self, links: &[LinkLog]) -> Result<(), AllocError>
        ensures { OnOk result (self.new ≡ self.old ++ flat_map sent_lines links.now) }
    {
        for link in links {
            self.put_sent_rows(link.node, link.sent.as_slice())?;
        }
        Ok(())
    }

    /// Adds what was got from each node.
    pub fn put_got(&mut self, calls: &CallIndex, links: &[LinkLog]) -> Result<(), AllocError>
        ensures { OnOk result (self.new ≡ self.old ++ flat_map (got_lines (number_in calls.now)) links.now) }
    {
        for link in links {
            self.put_got_rows(calls, link.node, link.got.as_slice())?;
        }
        Ok(())
    }

    fn put_sent_rows(&mut self, node: u32, sent: &[SentRow]) -> Result<(), AllocError>
        ensures { OnOk result (self.new ≡ self.old ++ numbered_lines (sent_line node) 1 sent.now) }
    {
        for (i, row) in sent.iter().enumerate() {
            self.put_sent_row(node, i + 1, row)?;
        }
        Ok(())
    }

    fn put_got_rows(
        &mut self,
        calls: &CallIndex,
        node: u32,
        got: &[GotRow],
    ) -> Result<(), AllocError>
        ensures { OnOk result (self.new ≡ self.old ++ numbered_lines (got_line (number_in calls.now) node) 1 got.now) }
    {
        for (i, row) in got.iter().enumerate() {
            self.put_got_row(calls, node, i + 1, row)?;
        }
        Ok(())
    }

    #[tactic(auto, unfolding(crate::specs::ReportText::sent_line))]
    fn put_sent_row(&mut self, node: u32, number: usize, row: &SentRow) -> Result<(), AllocError>
        ensures { OnOk result (self.new ≡ self.old ++ sent_line node number row.now) }
    {
        let call = row.call;
        self.text
            .show(format_args!("sent {node} {number} call {call} "))?;
        self.text.put_hex(row.frame.as_slice())?;
        self.text.show("\n")
    }

    #[tactic(auto, unfolding(crate::specs::ReportText::got_line))]
    fn put_got_row(
        &mut self,
        calls: &CallIndex,
        node: u32,
        number: usize,
        row: &GotRow,
    ) -> Result<(), AllocError>
        ensures { OnOk result (self.new ≡ self.old ++ got_line (number_in calls.now) node number row.now) }
    {
        self.text.show(format_args!("got {node} {number} "))?;
        self.put_fate(calls, row.fate)?;
        self.text.show(" ")?;
        self.text.put_hex(row.packet.as_slice())?;
        self.text.show("\n")
    }

    #[tactic(auto, unfolding(crate::specs::ReportText::fate_text))]
    fn put_fate(&mut self, calls: &CallIndex, fate: GotFate) -> Result<(), AllocError>
        ensures { OnOk result (self.new ≡ self.old ++ fate_text (number_in calls.now) fate) }
    {
        match fate {
            GotFate::Used { id } => {
                let call = calls.call(id);
                self.text.show(format_args!("used {call}"))
            }
            GotFate::Late { .. } => self.text.show("late"),
        }
    }
}
