//! Reading a script line by line.
use crate::reading::ScriptRefusal;
use crate::versions::most_cpus;
use nt_event::{
    ApcDecl, ApcKind, Command, DpcDecl, Items, Routine, Script, ThreadDecl, TimerDecl, limits,
};
use nt_line::{Keyword, Kind, Names, Place, Verb, command, declarations, fields, keyword_of};
use nt_text::{Fields, Row, ScriptKind, What10};
use std::alloc::{AllocError, Global};
use std::mem;

/// A script and the names of its things.
#[derive(Drop)]
pub struct Input {
    /// The version of its text, 1 or 2.
    pub version: u8,
    /// What is declared.
    pub script: Script,
    /// The names, in the order of the script's lists.
    pub names: Names,
}

/// What was read so far.
#[derive(Drop)]
pub struct Walk {
    /// The version of the text.
    pub version: u8,
    /// The script, without the routine whose `exit` has not come.
    pub script: Script,
    /// The names that the lines before declare.
    pub names: Names,
    /// The commands of the routine whose `exit` has not come.
    pub body: Items<Command>,
    /// How many commands there are in all routines.
    pub commands: u32,
    /// What was read last.
    pub place: Place,
}

/// Why a line is not taken.
#[derive(Debug, Drop)]
pub enum Stop {
    /// No memory is left.
    NoMemory,
    /// The line is bad.
    Bad(ScriptKind),
}

impl From<AllocError> for Stop {
    ghost use Rattle.std.specs.Prelude.{◌≡◌};
    ghost use Rattle.nt_script.specs.declared.walk.Stop.TheVariants.{NoMemory};

    ghost from_gives = { λ _ e. e ≡ NoMemory };

    fn from(_e: AllocError) -> Stop {
        Stop::NoMemory
    }
}

impl From<ScriptKind> for Stop {
    ghost use Rattle.std.specs.Prelude.{◌≡◌};
    ghost use Rattle.nt_script.specs.declared.walk.Stop.TheVariants.{Bad};

    ghost from_gives = { λ kind e. e ≡ Bad kind };

    fn from(kind: ScriptKind) -> Stop {
        Stop::Bad(kind)
    }
}

impl Walk {
    ghost use Rattle.std.specs.Prelude.{◌≡◌, ◌∷◌, [], None, length, nat_lt};
    ghost use Rattle.std.specs.Result.{result_map_both};
    ghost use Rattle.nt_text.specs.declared.kind.ScriptKind.TheVariants.{TooMany};
    ghost use Rattle.nt_text.specs.declared.kind.What10.TheVariants as what;
    ghost use Rattle.nt_event.specs.declared.limits.TheConstants.{APCS, COMMANDS, DPCS, THREADS};
    ghost use Rattle.nt_event.specs.declared.limits.TheConstants.{TIMERS};
    ghost use Rattle.nt_line.specs.Results.{ok_if};
    ghost use Rattle.nt_line.specs.Keywords.{keyword_of};
    ghost use Rattle.nt_line.specs.NameLists.{no_names, meaning};
    ghost use Rattle.nt_script.specs.Reading.{first_place, start, with_apc, with_command, with_dpc};
    ghost use Rattle.nt_script.specs.Reading.{with_thread, with_timer, keyword_at, step, act};
    ghost use Rattle.nt_script.specs.Reading.{row_step, finish, input_of};
    ghost use Rattle.nt_script.specs.Gives.{Gives, GivesAll};

    /// The place before all lines.
    fn first_place(version: u8) -> Place
        ensures { result ≡ first_place version }
    {
        if version >= 2 {
            Place::Start
        } else {
            Place::HasVersion
        }
    }

    /// Nothing was read of a text of this version.
    pub fn new(alloc: Global, version: u8) -> Walk
        ensures { result ≡ start version }
    {
        Walk {
            version,
            script: Script {
                cpus: 1,
                depth: None,
                threaded: None,
                isrs: Items::new(alloc),
                dpcs: Items::new(alloc),
                timers: Items::new(alloc),
                threads: Items::new(alloc),
                apcs: Items::new(alloc),
                routines: Items::new(alloc),
                locks: 0,
            },
            names: Names::new(alloc),
            body: Items::new(alloc),
            commands: 0,
            place: Walk::first_place(version),
        }
    }

    /// Whether the text may end here; else the line behind the last, which has this number, is bad.
    pub fn may_end(&self, line: u32) -> Result<(), ScriptRefusal>
        ensures { GivesAll result (input_of self.now) (finish self.now.place self.now line) }
    {
        match self.place {
            Place::Start | Place::HasVersion => Err(ScriptRefusal::Bad {
                line,
                kind: ScriptKind::NoCpus,
            }),
            Place::InRoutine => Err(ScriptRefusal::Bad {
                line,
                kind: ScriptKind::NoEnd,
            }),
            Place::HasCpus
            | Place::HasDepth
            | Place::HasThreaded
            | Place::InIsrs
            | Place::InDpcs
            | Place::InTimers
            | Place::InThreads
            | Place::InApcs
            | Place::InLocks
            | Place::InRoutines => Ok(()),
        }
    }

    /// The version, the script and the names.
    pub fn into_input(self) -> Input
        ensures { result ≡ input_of self }
    {
        let Walk {
            version,
            script,
            names,
            body: _,
            commands: _,
            place: _,
        } = self;
        Input {
            version,
            script,
            names,
        }
    }

    /// Takes a line, or what is wrong with it. `all` are the names that the lines of the whole text
    /// declare.
    #[inline(always)]
    pub fn line(
        &mut self,
        alloc: Global,
        all: &Names,
        line: Result<Row, ScriptKind>,
    ) -> Result<(), Stop>
        ensures { Gives result self.new (row_step all.now self.old
            (result_map_both (λ r. r.first.now ∷ r.rest) (λ e. e) line.entry)) }
    {
        match line {
            Ok(Row { first, mut rest }) => self.step(alloc, all, first, &mut rest),
            Err(kind) => Err(Stop::Bad(kind)),
        }
    }

    /// Takes the fields of a line: its keyword, then how many fields there are, then each field.
    #[inline(always)]
    fn step(
        &mut self,
        alloc: Global,
        all: &Names,
        first: &[u8],
        args: &mut Fields,
    ) -> Result<(), Stop>
        ensures { Gives result self.new (step all.now self.old (first.now ∷ args.old)) }
    {
        let keyword = self.keyword(first)?;
        let there = args.count();
        let wanted = keyword.arity();
        if there < wanted {
            return Err(Stop::Bad(ScriptKind::MissingField));
        }
        if there > wanted {
            return Err(Stop::Bad(ScriptKind::ExtraField));
        }
        self.act(alloc, all, keyword, args)
    }

    /// The keyword of a line at this place.
    fn keyword(&self, field: &[u8]) -> Result<Keyword, ScriptKind>
        ensures { result ≡ keyword_at self.now.place (keyword_of self.now.version field.now) }
    {
        let misplaced = match self.place {
            Place::Start | Place::HasVersion => ScriptKind::NoCpus,
            Place::HasCpus
            | Place::HasDepth
            | Place::HasThreaded
            | Place::InIsrs
            | Place::InDpcs
            | Place::InTimers
            | Place::InThreads
            | Place::InApcs
            | Place::InLocks
            | Place::InRoutines
            | Place::InRoutine => ScriptKind::UnknownWord,
        };
        match keyword_of(self.version, field) {
            Some(keyword) => {
                if keyword.stands(self.place) {
                    Ok(keyword)
                } else {
                    Err(misplaced)
                }
            }
            None => Err(misplaced),
        }
    }

    /// Takes the fields behind a keyword that may stand here.
    fn act(
        &mut self,
        alloc: Global,
        all: &Names,
        keyword: Keyword,
        args: &mut Fields,
    ) -> Result<(), Stop>
        ensures { Gives result self.new (act all.now self.old keyword args.old) }
    {
        match keyword {
            Keyword::Version => self.version(args),
            Keyword::Cpus => self.cpus(args),
            Keyword::Depth => self.depth(args),
            Keyword::Threaded => self.threaded(args),
            Keyword::Isr => self.isr(all, args),
            Keyword::Dpc { threaded } => self.dpc(alloc, all, threaded, args),
            Keyword::Timer => self.timer(alloc, all, args),
            Keyword::Thread => self.thread(alloc, all, args),
            Keyword::Apc(kind) => self.apc(alloc, all, kind, args),
            Keyword::Spinlock => self.lock(alloc, args),
            Keyword::Routine => self.routine(alloc, args),
            Keyword::Exit => self.exit(alloc),
            Keyword::Call(verb) => self.command(all, verb, args),
        }
    }

    fn version(&mut self, args: &mut Fields) -> Result<(), Stop>
        ensures { Gives result self.new (act no_names self.old Keyword.Version args.old) }
    {
        let n = fields::number(args.take(), u32::MAX)?;
        if n != 2 {
            return Err(Stop::Bad(ScriptKind::BadNumber));
        }
        self.place = Place::HasVersion;
        Ok(())
    }

    fn cpus(&mut self, args: &mut Fields) -> Result<(), Stop>
        ensures { Gives result self.new (act no_names self.old Keyword.Cpus args.old) }
    {
        let n = fields::number(args.take(), u32::MAX)?;
        if n == 0 {
            return Err(Stop::Bad(ScriptKind::BadNumber));
        }
        if n > u32::from(most_cpus(self.version)) {
            return Err(Stop::Bad(ScriptKind::TooMany(What10::Cpus)));
        }
        self.script.cpus = n as u8;
        self.place = Place::HasCpus;
        Ok(())
    }

    fn depth(&mut self, args: &mut Fields) -> Result<(), Stop>
        ensures { Gives result self.new (act no_names self.old Keyword.Depth args.old) }
    {
        self.script.depth = Some(fields::number(args.take(), limits::DEPTH)?);
        self.place = Place::HasDepth;
        Ok(())
    }

    fn threaded(&mut self, args: &mut Fields) -> Result<(), Stop>
        ensures { Gives result self.new (act no_names self.old Keyword.Threaded args.old) }
    {
        self.script.threaded = Some(fields::on_off(args.take())?);
        self.place = Place::HasThreaded;
        Ok(())
    }

    fn isr(&mut self, all: &Names, args: &mut Fields) -> Result<(), Stop>
        ensures { Gives result self.new (act all.now self.old Keyword.Isr args.old) }
    {
        let isr = declarations::isr(all, self.script.cpus, args)?;
        if self.script.isr_of(isr.cpu, isr.level).is_some() {
            return Err(Stop::Bad(ScriptKind::NameTwice));
        }
        self.script.isrs.push(isr)?;
        self.place = Place::InIsrs;
        Ok(())
    }

    fn dpc(
        &mut self,
        alloc: Global,
        all: &Names,
        threaded: bool,
        args: &mut Fields,
    ) -> Result<(), Stop>
        ensures { Gives result self.new (act all.now self.old (Keyword.Dpc threaded) args.old) }
    {
        let name = fields::new_name(&self.names, args.take())?;
        let dpc = declarations::dpc(all, threaded, args)?;
        self.add_dpc(alloc, name, dpc)
    }

    fn add_dpc(&mut self, alloc: Global, name: &str, dpc: DpcDecl) -> Result<(), Stop>
        requires { meaning name.now self.old.names ≡ None }
        ensures { Gives result self.new (ok_if (nat_lt (length self.old.script.dpcs) DPCS)
            (with_dpc self.old name.now dpc) (TooMany what.Dpcs)) }
    {
        if self.script.dpcs.len() >= limits::DPCS {
            return Err(Stop::Bad(ScriptKind::TooMany(What10::Dpcs)));
        }
        self.script.dpcs.push(dpc)?;
        self.names.add(alloc, Kind::Dpc, name)?;
        self.place = Place::InDpcs;
        Ok(())
    }

    fn timer(&mut self, alloc: Global, all: &Names, args: &mut Fields) -> Result<(), Stop>
        ensures { Gives result self.new (act all.now self.old Keyword.Timer args.old) }
    {
        let name = fields::new_name(&self.names, args.take())?;
        let timer = declarations::timer(all, args)?;
        self.add_timer(alloc, name, timer)
    }

    fn add_timer(&mut self, alloc: Global, name: &str, timer: TimerDecl) -> Result<(), Stop>
        requires { meaning name.now self.old.names ≡ None }
        ensures { Gives result self.new (ok_if (nat_lt (length self.old.script.timers) TIMERS)
            (with_timer self.old name.now timer) (TooMany what.Timers)) }
    {
        if self.script.timers.len() >= limits::TIMERS {
            return Err(Stop::Bad(ScriptKind::TooMany(What10::Timers)));
        }
        self.script.timers.push(timer)?;
        self.names.add(alloc, Kind::Timer, name)?;
        self.place = Place::InTimers;
        Ok(())
    }

    fn thread(&mut self, alloc: Global, all: &Names, args: &mut Fields) -> Result<(), Stop>
        ensures { Gives result self.new (act all.now self.old Keyword.Thread args.old) }
    {
        let name = fields::new_name(&self.names, args.take())?;
        let thread = declarations::thread(all, self.script.cpus, args)?;
        self.add_thread(alloc, name, thread)
    }

    fn add_thread(&mut self, alloc: Global, name: &str, thread: ThreadDecl) -> Result<(), Stop>
        requires { meaning name.now self.old.names ≡ None }
        ensures { Gives result self.new (ok_if (nat_lt (length self.old.script.threads) THREADS)
            (with_thread self.old name.now thread) (TooMany what.Threads)) }
    {
        if self.script.threads.len() >= limits::THREADS {
            return Err(Stop::Bad(ScriptKind::TooMany(What10::Threads)));
        }
        self.script.threads.push(thread)?;
        self.names.add(alloc, Kind::Thread, name)?;
        self.place = Place::InThreads;
        Ok(())
    }

    fn apc(
        &mut self,
        alloc: Global,
        all: &Names,
        kind: ApcKind,
        args: &mut Fields,
    ) -> Result<(), Stop>
        ensures { Gives result self.new (act all.now self.old (Keyword.Apc kind) args.old) }
    {
        let name = fields::new_name(&self.names, args.take())?;
        let apc = declarations::apc(all, kind, args)?;
        self.add_apc(alloc, name, apc)
    }

    fn add_apc(&mut self, alloc: Global, name: &str, apc: ApcDecl) -> Result<(), Stop>
        requires { meaning name.now self.old.names ≡ None }
        ensures { Gives result self.new (ok_if (nat_lt (length self.old.script.apcs) APCS)
            (with_apc self.old name.now apc) (TooMany what.Apcs)) }
    {
        if self.script.apcs.len() >= limits::APCS {
            return Err(Stop::Bad(ScriptKind::TooMany(What10::Apcs)));
        }
        self.script.apcs.push(apc)?;
        self.names.add(alloc, Kind::Apc, name)?;
        self.place = Place::InApcs;
        Ok(())
    }

    fn lock(&mut self, alloc: Global, args: &mut Fields) -> Result<(), Stop>
        ensures { Gives result self.new (act no_names self.old Keyword.Spinlock args.old) }
    {
        let name = fields::new_name(&self.names, args.take())?;
        if self.script.locks >= limits::LOCKS {
            return Err(Stop::Bad(ScriptKind::TooMany(What10::Spinlocks)));
        }
        self.script.locks += 1;
        self.names.add(alloc, Kind::Lock, name)?;
        self.place = Place::InLocks;
        Ok(())
    }

    fn routine(&mut self, alloc: Global, args: &mut Fields) -> Result<(), Stop>
        ensures { Gives result self.new (act no_names self.old Keyword.Routine args.old) }
    {
        let name = fields::new_name(&self.names, args.take())?;
        if self.script.routines.len() >= limits::ROUTINES {
            return Err(Stop::Bad(ScriptKind::TooMany(What10::Routines)));
        }
        self.names.add(alloc, Kind::Routine, name)?;
        self.place = Place::InRoutine;
        Ok(())
    }

    fn exit(&mut self, alloc: Global) -> Result<(), Stop>
        ensures { Gives result self.new (act no_names self.old Keyword.Exit []) }
    {
        let commands = mem::replace(&mut self.body, Items::new(alloc));
        self.script.routines.push(Routine { commands })?;
        self.place = Place::InRoutines;
        Ok(())
    }

    fn command(&mut self, all: &Names, verb: Verb, args: &mut Fields) -> Result<(), Stop>
        ensures { Gives result self.new (act all.now self.old (Keyword.Call verb) args.old) }
    {
        let command = command(all, self.script.cpus, verb, args)?;
        self.add_command(command)
    }

    fn add_command(&mut self, command: Command) -> Result<(), Stop>
        ensures { Gives result self.new (ok_if (nat_lt self.old.commands COMMANDS)
            (with_command self.old command) (TooMany what.Commands)) }
    {
        if self.commands >= limits::COMMANDS as u32 {
            return Err(Stop::Bad(ScriptKind::TooMany(What10::Commands)));
        }
        self.body.push(command)?;
        self.commands += 1;
        Ok(())
    }
}
