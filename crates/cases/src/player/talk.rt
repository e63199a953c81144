// What is asked of a drive in a step, and what it must answer.

use crate::player::items::printed_for;
use crate::player::numbered::Numbered;
use crate::player::report::Report;
use std::alloc::{AllocError, Global};

/// The requests of a step and its answers, as they are written.
#[derive(Drop)]
pub struct Talk {
    alloc: Global,
    script: String,
    answers: Vec<Numbered>,
}

impl Talk {
    /// One in which nothing is asked.
    pub fn new(alloc: Global) -> Talk {
        Talk {
            alloc,
            script: String::new(alloc),
            answers: Vec::new(alloc),
        }
    }

    /// The script of the requests.
    pub fn script(&self) -> &str {
        self.script.as_str()
    }

    /// Takes a request.
    pub fn ask(&mut self, request: &str) -> Result<(), AllocError> {
        self.script.push_str(request)?;
        self.script.push_str("\n")
    }

    /// Takes an answer.
    pub fn answer(&mut self, number: usize, text: &str) -> Result<(), AllocError> {
        let answer = Numbered::new(self.alloc, number, text)?;
        self.answers.push(answer)?;
        Ok(())
    }

    /// Compares a line that was printed with the answer that is written; of one that ends in `..` the beginning.
    fn compare_one(
        &self,
        report: &mut Report,
        answer: &Numbered,
        came: &str,
    ) -> Result<(), AllocError> {
        if let Some(beginning) = answer.text.as_str().strip_suffix("..")
            && came.starts_with(beginning)
        {
            return Ok(());
        }
        match printed_for(self.alloc, answer.text.as_str())? {
            Some(wanted) => report.compare(answer.number, wanted.as_str(), came),
            None => report.tell(answer.number, "no bytes as `00 ff`, `41*254` or `\"NAME\"`"),
        }
    }

    /// Compares what was printed in the step of a line with the answers that are written.
    pub fn compare(
        &self,
        report: &mut Report,
        number: usize,
        printed: &str,
    ) -> Result<(), AllocError> {
        let mut lines = printed.lines();
        for answer in self.answers.as_slice() {
            let came = lines.next().unwrap_or("nothing");
            self.compare_one(report, answer, came)?;
        }
        for came in lines {
            report.compare(number, "no more answers in this step", came)?;
        }
        Ok(())
    }
}
