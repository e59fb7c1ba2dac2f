//! Scripts, from their text to their run.
ghost use Rattle.std.specs.Prelude.{◌≡◌, ◌≤◌, None, Some, length, option_map, IfOk, IfErr, OnOk};
ghost use Rattle.cfdp_report.specs.Settings.{world_of};
ghost use Rattle.cfdp_report.specs.Words.{parts};
ghost use Rattle.cfdp_script.specs.Script.Lines as scripts;
ghost use Rattle.cfdp_script.specs.Script.Lines.{files_of, steps_of, settings_of, numbered};
ghost use Rattle.cfdp_script.specs.Script.Lines.{IsFirst};
ghost use Rattle.cfdp_script.specs.Script.Gathering.{gathered, noted, taken, read_cut, gather};

pub mod command;
pub mod outboxes;
pub mod perform;
pub mod reason;
pub mod report;
pub mod run;
pub mod sim;

use crate::input::MAX_SCRIPT;
use crate::script::command::{Command, FileLine, Line, parse_line};
use crate::script::reason::bad_line;
use cfdp_report::{
    BadLine, Hint, LineError, Quote, Setting, Settings, Unread, cut_at_first, without_return,
};
use link_sim::WorldConfig;
use std::alloc::{AllocError, Global};
use valid_config::Valid;

/// A script, read to its end.
#[derive(Drop)]
pub struct Script {
    pub files: Vec<FileLine>,
    pub steps: Vec<Step>,
    settings: Settings,
    last_set: usize,
    // The line of the last `set` of each setting, in the order of `Setting`; 0 without one.
    set_lines: [usize; 21],
    first_bad: Option<BadLine>,
}

/// A command and the number of its line. The first line is 1.
#[derive(Drop)]
pub struct Step {
    pub line: usize,
    pub command: Command,
}

impl Script {
    /// Reads all lines of this text.
    ///
    /// # Errors
    ///
    /// `AllocError` if there is no memory. `config` says whether a line is bad.
    pub fn parse(alloc: Global, text: &[u8]) -> Result<Script, AllocError>
        requires { length text.now ≤ MAX_SCRIPT }
        ensures files { IfOk result (λ script. script.files.items ≡ files_of text.now) }
        ensures steps { IfOk result (λ script. script.steps.items ≡ steps_of text.now) }
        ensures settings { IfOk result (λ script. script.settings ≡ settings_of text.now) }
        ensures last { IfOk result (λ script. script.last_set ≡ scripts.last_set text.now) }
        ensures misread { IfOk result (λ script. option_map (λ bad. bad.line) script.first_bad
            ≡ scripts.first_misread text.now) }
    {
        let mut script = Script {
            files: Vec::new(alloc),
            steps: Vec::new(alloc),
            settings: Settings::DEFAULT,
            last_set: 0,
            set_lines: [0; 21],
            first_bad: None,
        };
        script.read_lines(alloc, text)?;
        Ok(script)
    }

    fn read_lines(&mut self, alloc: Global, text: &[u8]) -> Result<(), AllocError>
        requires { length text.now ≤ MAX_SCRIPT }
        ensures { OnOk result (gathered self.new
            ≡ gather (gathered self.old) (numbered 1 (parts 10 text.now))) }
    {
        let mut line = 0;
        let mut rest = Some(text);
        while let Some(lines) = rest {
            line += 1;
            let (first, behind) = cut_at_first(lines, b'\n');
            self.read_line(alloc, line, without_return(first))?;
            rest = behind;
        }
        Ok(())
    }

    fn read_line(&mut self, alloc: Global, line: usize, text: &[u8]) -> Result<(), AllocError>
        ensures { OnOk result (gathered self.new ≡ read_cut (gathered self.old) line text.now) }
    {
        if is_skipped(text) {
            return Ok(());
        }
        match parse_line(alloc, text) {
            Ok(meant) => self.keep(line, meant),
            Err(Unread::NoMemory) => Err(AllocError),
            Err(Unread::Bad(error)) => {
                self.note(bad_line(alloc, line, text, error));
                Ok(())
            }
        }
    }

    fn keep(&mut self, line: usize, meant: Line) -> Result<(), AllocError>
        ensures { OnOk result (gathered self.new ≡ taken (gathered self.old) line (Some meant)) }
    {
        match meant {
            Line::Command(command) => self.keep_command(line, command),
            Line::File(file) => self.keep_file(line, file),
            Line::Set(setting, value) => {
                self.keep_setting(line, setting, value);
                Ok(())
            }
        }
    }

    fn keep_command(&mut self, line: usize, command: Command) -> Result<(), AllocError>
        ensures { OnOk result (gathered self.new
            ≡ taken (gathered self.old) line (Some (Line.Command command))) }
    {
        self.steps.push(Step { line, command })?;
        Ok(())
    }

    fn keep_file(&mut self, line: usize, file: FileLine) -> Result<(), AllocError>
        ensures { OnOk result (gathered self.new
            ≡ taken (gathered self.old) line (Some (Line.File file))) }
    {
        if self.steps.is_empty() {
            self.files.push(file)?;
        } else {
            self.note(BadLine::whole(line, LineError::TooLate));
        }
        Ok(())
    }

    fn keep_setting(&mut self, line: usize, setting: Setting, value: u64)
        ensures { gathered self.new ≡ taken (gathered self.old) line
            (Some (Line.Set setting value)) }
    {
        if self.steps.is_empty() {
            self.settings.set(setting, value);
            self.last_set = line;
            note_set(&mut self.set_lines, setting, line);
        } else {
            self.note(BadLine::whole(line, LineError::TooLate));
        }
    }

    /// Keeps which line is the first that is misread.
    fn note(&mut self, bad: BadLine)
        ensures { gathered self.new ≡ noted (gathered self.old) bad.line }
    {
        if self.first_bad.is_none() {
            self.first_bad = Some(bad);
        }
    }

    /// Returns the configuration that the script sets.
    ///
    /// # Errors
    ///
    /// The first bad line, if there is one. A configuration that isn't valid makes the last `set`
    /// bad.
    pub fn config(&self) -> Result<Valid<WorldConfig>, BadLine>
        ensures same { IfOk result (λ config. config ≡ world_of self.now.settings) }
        ensures good { OnOk result (IsFirst (option_map (λ bad. bad.line) self.now.first_bad)
            self.now.last_set self.now.settings None) }
        ensures bad { IfErr result (λ told. IsFirst
            (option_map (λ bad. bad.line) self.now.first_bad)
            self.now.last_set self.now.settings (Some told.line)) }
    {
        let Some(config) = self.settings.config() else {
            return Err(self.bad_configuration());
        };
        match self.first_bad {
            None => Ok(config),
            Some(bad) => Err(bad),
        }
    }

    /// Returns the first bad line, if the last `set` is one.
    fn bad_configuration(&self) -> BadLine
        ensures { result.line ≡ scripts.earlier (option_map (λ bad. bad.line) self.now.first_bad)
            self.now.last_set }
    {
        let line = self.last_set;
        match self.first_bad {
            Some(bad) if bad.line < line => bad,
            _ => BadLine {
                line,
                error: self.out_of_range(),
                word: Quote::NONE,
                hint: Hint::Nothing,
            },
        }
    }

    /// Returns why the configuration isn't valid: the first setting that is out of its range, and
    /// the line that set it.
    fn out_of_range(&self) -> LineError {
        if let Some((setting, value)) = self.settings.out_of_range() {
            return LineError::OutOfRange {
                setting,
                value,
                line: set_line(&self.set_lines, setting),
            };
        }
        LineError::BadConfiguration
    }
}

/// Notes which line set a setting last.
fn note_set(lines: &mut [usize; 21], setting: Setting, line: usize) {
    if let Some(last) = lines.get_mut(setting as usize) {
        *last = line;
    }
}

/// Returns the line that set a setting last.
fn set_line(lines: &[usize; 21], setting: Setting) -> usize {
    lines.get(setting as usize).copied().unwrap_or(0)
}

/// Returns `true` if a line has no meaning of its own: it is empty, or begins with `#`.
fn is_skipped(line: &[u8]) -> bool
    ensures { result ≡ scripts.is_skipped line.now }
{
    line.is_empty() || line[0] == b'#'
}
