//! The arguments of the command line.
ghost use Rattle.std.specs.Prelude.{◌≡◌, ℕ, List, Result, [], Some, map, codes, option_map, IfOk, IfErr};
ghost use Rattle.clap.specs.Words.{app_of, found_of, new_app, new_rule, rows_of, rule_of, subcommand_of, subcommand_rows_of, with_subcommand, HasKind};
ghost use Rattle.agent.specs.CommandLine.{HasServing, HasStoring, IfServer, IsApart, IsFarAs, IsLocal, IsUnixAs, asked_task, asm_shape, bare, budget_option, check_shape, command_line, commands_shape};
ghost use Rattle.agent.specs.CommandLine.{connections_option, dis_shape, far_of, far_rule, far_timeout_option, faults_of, flag_rule, flagged_shape};
ghost use Rattle.agent.specs.CommandLine.{idle_option, is_given, is_set, is_told, keep_option, memory_option, number_in, port_option, run_shape, serve_shape, serving_in, showing_in};
ghost use Rattle.agent.specs.CommandLine.{store_shape, storing_in, task_named, task_of, unix_of, unix_rule, verbose_rule, workers_option};
ghost use Rattle.agent.specs.OptionNumbers.{HasNumber, ParsesAs, number_rule, parses_as};

mod help_texts;
mod laws;

use clap::parser::ValueSource;
use clap::{Arg, ArgAction, ArgMatches, Command, Error, value_parser};
use help_texts::{
    ABOUT, ASM_HELP, CHECK_HELP, COMMANDS_HELP, DIS_HELP, RUN_HELP, SERVE_HELP, STORE_HELP,
    TOP_HELP,
};
pub use laws::{
    invalid_arguments, invalid_budgets, right_arguments, right_arguments_name_a_task,
    right_budgets, right_flags, right_ports, right_services,
};
use std::alloc::{AllocError, Global};
use std::convert::AsStr;
use std::str::FromStr;

/// The version of the program.
pub const VERSION: &str = "0.9.0";

/// What the program can be asked for.
#[derive(Clone, Copy, Debug, PartialEq, Eq)]
pub enum Task {
    /// To do commands, where the objects that aren't far have at most so many bytes.
    Run { budget: u32 },
    /// To check raw code, and to explain a refusal where that is asked for.
    Check { explains: bool },
    /// To turn assembly into raw code, and to explain an error where that is asked for.
    Assemble { explains: bool },
    /// To show raw code as text.
    Disassemble(Showing),
    /// To keep what clients send away.
    Store(Storing),
    /// To do the commands of the input, and then those of clients.
    Serve(Serving),
    /// To show the table of commands.
    Commands,
}

/// How `dis` shows code.
#[derive(Clone, Copy, Drop, Debug, PartialEq, Eq)]
pub struct Showing {
    /// Whether the number of its slot stands before each instruction.
    pub has_slots: bool,
    /// Whether instructions are spelled as `llvm-objdump` spells them.
    pub is_llvm: bool,
}

/// How `store` keeps.
#[derive(Clone, Copy, Drop, Debug, PartialEq, Eq)]
pub struct Storing {
    /// The port to listen on, or 0 for any free one.
    pub port: u16,
    /// How many seconds a client may be idle, or 0 for ever.
    pub idle: u32,
    /// How many bytes are kept at most, of all clients together, or 0 for as many as there is memory for.
    pub memory: u32,
    /// Whether what happens is written down.
    pub verbose: bool,
}

/// How `serve` serves.
#[derive(Clone, Copy, Debug, PartialEq, Eq)]
pub struct Serving {
    /// The port to listen on, or 0 for any free one.
    pub port: u16,
    /// Whether a port is asked for, be it 0.
    pub has_port: bool,
    /// How many connections are taken in all.
    pub connections: u8,
    /// How many workers step machines.
    pub workers: u8,
    /// The most bytes that the objects that aren't far may have before connections are taken.
    pub budget: u32,
    /// Whether objects that nobody uses are sent away.
    pub sweep: bool,
    /// The most bytes that the objects have that are here, while connections are served, unless those in use have more.
    pub keep: u32,
    /// How many milliseconds connecting to the far server, a read from it or a write to it may take.
    pub far_timeout: u32,
    /// Whether what happens is written down.
    pub verbose: bool,
}

/// A server that the program can be asked to be.
#[derive(Clone, Copy, Drop, Debug, PartialEq, Eq)]
pub enum Server<'a> {
    /// One that keeps what clients send away.
    Store(Storing),
    /// One that shares objects and machines with clients. Its far objects are kept at the server of this address, `HOST:PORT`,
    /// where one is given.
    Serve {
        serving: Serving,
        far: Option<&'a str>,
        /// The path of the socket file to listen at instead of a port.
        unix: Option<&'a str>,
    },
}

/// What the arguments ask for.
#[derive(Clone, Copy, Debug, PartialEq, Eq)]
pub enum Asked<'a> {
    /// A server, which needs the network: [`run_store`](crate::run_store) or [`run_service`](crate::run_service).
    Server(Server<'a>),
    /// A task over the standard streams, never a server's: [`do_task`](crate::do_task).
    Task(Task),
}

impl<'a> Asked<'a> {
    /// This task, or the server that does it, with the texts of `--far` and `--unix`.
    fn new(task: Task, far: Option<&'a str>, unix: Option<&'a str>) -> Asked<'a>
        ensures task { asked_task result ≡ task }
        ensures far { IfServer (IsFarAs (option_map (λ text. text.now) far.entry)) result }
        ensures unix { IfServer (IsUnixAs (option_map (λ text. text.now) unix.entry)) result }
        ensures none { IsApart result }
    {
        match task {
            Task::Store(storing) => Asked::Server(Server::Store(storing)),
            Task::Serve(serving) => Asked::Server(Server::Serve { serving, far, unix }),
            task => Asked::Task(task),
        }
    }

    /// The task that is asked for, also where a server does it.
    pub(crate) fn task(self) -> Task
        ensures { result ≡ asked_task self.entry }
    {
        match self {
            Asked::Server(Server::Store(storing)) => Task::Store(storing),
            Asked::Server(Server::Serve { serving, .. }) => Task::Serve(serving),
            Asked::Task(task) => task,
        }
    }
}

/// `--NAME VALUE`, where VALUE is any text.
fn make_option<'a>(alloc: Global, name: &'a str, value: &'a str) -> Arg<'a>
    ensures { rule_of result ≡ record (new_rule name.entry.now) { long = Some name.entry.now; value_names = 1 } }
{
    Arg::new(alloc, name).long(name).value_name(value)
}

/// The greatest budget: 64 MiB.
const BUDGET_LIMIT: i64 = 67_108_864;

/// `--budget N`: the most bytes that the objects that aren't far may have.
fn make_budget<'a>(alloc: Global) -> Arg<'a>
    ensures { rule_of result ≡ number_rule budget_option }
{
    make_option(alloc, "budget", "N")
        .value_parser(value_parser!(u32).range(0..=BUDGET_LIMIT))
        .default_value("67108864")
        .help("The most bytes of objects that are not far, 0 to 67108864")
}

/// `--port P`: the port to listen on.
fn make_port<'a>(alloc: Global) -> Arg<'a>
    ensures { rule_of result ≡ number_rule port_option }
{
    make_option(alloc, "port", "P")
        .value_parser(value_parser!(u16))
        .default_value("0")
        .help("The port to listen on, 0 to 65535, where 0 is any free one")
}

/// `--unix PATH`: the socket file to listen at.
fn make_unix<'a>(alloc: Global) -> Arg<'a>
    ensures { rule_of result ≡ unix_rule }
{
    make_option(alloc, "unix", "PATH").help(
        "The socket file to listen at instead of a port; only its owner can connect",
    )
}

/// `--idle SECONDS`: how long a client of `store` may be idle.
fn make_idle<'a>(alloc: Global) -> Arg<'a>
    ensures { rule_of result ≡ number_rule idle_option }
{
    make_option(alloc, "idle", "SECONDS")
        .value_parser(value_parser!(u32).range(0..=86_400))
        .default_value("0")
        .help("The most seconds that a client may be idle, 0 to 86400, where 0 is for ever")
}

/// `--memory BYTES`: how much `store` keeps.
fn make_memory<'a>(alloc: Global) -> Arg<'a>
    ensures { rule_of result ≡ number_rule memory_option }
{
    make_option(alloc, "memory", "BYTES")
        .value_parser(value_parser!(u32))
        .default_value("0")
        .help("The most bytes that are kept, 0 to 4294967295, where 0 is no bound")
}

/// `--connections N`: how many connections are taken.
fn make_connections<'a>(alloc: Global) -> Arg<'a>
    ensures { rule_of result ≡ number_rule connections_option }
{
    make_option(alloc, "connections", "N")
        .value_parser(value_parser!(u8).range(1..=8))
        .default_value("1")
        .help("How many connections are taken in all, 1 to 8")
}

/// `--workers W`: how many workers there are.
fn make_workers<'a>(alloc: Global) -> Arg<'a>
    ensures { rule_of result ≡ number_rule workers_option }
{
    make_option(alloc, "workers", "W")
        .value_parser(value_parser!(u8).range(0..=16))
        .default_value("2")
        .help("How many workers step machines, 0 to 16")
}

/// The greatest number of bytes to keep, which all objects together have at most: 64 MiB.
const KEEP_LIMIT: i64 = 67_108_864;

/// `--keep BYTES`: how many bytes of objects are here while connections are served.
fn make_keep<'a>(alloc: Global) -> Arg<'a>
    ensures { rule_of result ≡ number_rule keep_option }
{
    make_option(alloc, "keep", "BYTES")
        .value_parser(value_parser!(u32).range(65_536..=KEEP_LIMIT))
        .default_value("67108864")
        .help(
            "The most bytes of objects that are here while clients are served, 65536 to 67108864; those in use stay",
        )
}

/// `--far HOST:PORT`: the server that keeps far objects.
fn make_far<'a>(alloc: Global) -> Arg<'a>
    ensures { rule_of result ≡ far_rule }
{
    make_option(alloc, "far", "HOST:PORT").help(
        "The server that keeps far objects, HOST an IP address; without it they stay in this process",
    )
}

/// `--far-timeout MS`: how long the far server may take.
fn make_far_timeout<'a>(alloc: Global) -> Arg<'a>
    ensures { rule_of result ≡ number_rule far_timeout_option }
{
    make_option(alloc, "far-timeout", "MS")
        .value_parser(value_parser!(u32).range(1..=600_000))
        .default_value("5000")
        .help(
            "The most milliseconds that connecting to the far server, a read or a write may take, 1 to 600000",
        )
}

/// `--NAME`, which is given or not.
fn make_flag<'a>(alloc: Global, name: &'a str, help: &'a str) -> Arg<'a>
    ensures { rule_of result ≡ flag_rule name.entry.now }
{
    Arg::new(alloc, name)
        .long(name)
        .action(ArgAction::SetTrue)
        .help(help)
}

/// `-v`, `--verbose`: what happens is written down.
fn make_verbose<'a>(alloc: Global) -> Arg<'a>
    ensures { rule_of result ≡ verbose_rule }
{
    make_flag(
        alloc,
        "verbose",
        "Write what happens to standard error, a line each with the time",
    )
    .short('v')
}

/// A subcommand of this name, without options; in one line what it is about, and what else help says.
fn make_subcommand<'a>(alloc: Global, name: &'a str, about: &'a str, help: &'a str) -> Command<'a>
    ensures { (app_of result ≡ new_app name.entry.now) × IsLocal result }
{
    Command::new(alloc, name).about(about).after_help(help)
}

/// A subcommand of this name with one flag; in one line what each is about, and what else help says.
fn make_flagged<'a>(
    alloc: Global,
    name: &'a str,
    about: &'a str,
    help: &'a str,
    flag: &'a str,
    flag_about: &'a str,
) -> Result<Command<'a>, AllocError>
    ensures { IfOk result (λ c. ((app_of c).top ≡ flagged_shape name.entry.now flag.entry.now) × IsLocal c) }
{
    make_subcommand(alloc, name, about, help).arg(make_flag(alloc, flag, flag_about))
}

/// `run`, with its option.
fn make_run<'a>(alloc: Global) -> Result<Command<'a>, AllocError>
    ensures { IfOk result (λ c. ((app_of c).top ≡ run_shape) × IsLocal c) }
{
    make_subcommand(
        alloc,
        "run",
        "Do the commands of standard input, one a line",
        RUN_HELP,
    )
    .arg(make_budget(alloc))
}

/// `check`, with its option.
fn make_check<'a>(alloc: Global) -> Result<Command<'a>, AllocError>
    ensures { IfOk result (λ c. ((app_of c).top ≡ check_shape) × IsLocal c) }
{
    make_flagged(
        alloc,
        "check",
        "Check the raw code of standard input",
        CHECK_HELP,
        "explain",
        "Name the instruction, and the rule that it breaks, in a second line",
    )
}

/// `asm`, with its option.
fn make_asm<'a>(alloc: Global) -> Result<Command<'a>, AllocError>
    ensures { IfOk result (λ c. ((app_of c).top ≡ asm_shape) × IsLocal c) }
{
    make_flagged(
        alloc,
        "asm",
        "Turn the assembly of standard input into raw code",
        ASM_HELP,
        "explain",
        "Quote the line of an error, and name the token, in a second line",
    )
}

/// `dis`, with its options.
fn make_dis<'a>(alloc: Global) -> Result<Command<'a>, AllocError>
    ensures { IfOk result (λ c. ((app_of c).top ≡ dis_shape) × IsLocal c) }
{
    make_subcommand(
        alloc,
        "dis",
        "Show the raw code of standard input as assembly",
        DIS_HELP,
    )
    .arg(make_flag(
        alloc,
        "slots",
        "Show the number of its slot before each instruction",
    ))?
    .arg(make_flag(alloc, "llvm", "Spell each instruction as llvm-objdump does"))
}

/// `store`, with its options.
fn make_store<'a>(alloc: Global) -> Result<Command<'a>, AllocError>
    ensures { IfOk result (λ c. ((app_of c).top ≡ store_shape) × IsLocal c) }
{
    make_subcommand(
        alloc,
        "store",
        "Keep the objects of other agents",
        STORE_HELP,
    )
    .arg(make_port(alloc))?
    .arg(make_idle(alloc))?
    .arg(make_memory(alloc))?
    .arg(make_verbose(alloc))
}

/// `serve`, with its options.
fn make_serve<'a>(alloc: Global) -> Result<Command<'a>, AllocError>
    ensures { IfOk result (λ c. ((app_of c).top ≡ serve_shape) × IsLocal c) }
{
    make_subcommand(
        alloc,
        "serve",
        "Share objects and machines with clients",
        SERVE_HELP,
    )
    .arg(make_port(alloc))?
    .arg(make_unix(alloc))?
    .arg(make_connections(alloc))?
    .arg(make_workers(alloc))?
    .arg(make_budget(alloc))?
    .arg(make_flag(
        alloc,
        "sweep",
        "Send away objects that nobody has used for a while",
    ))?
    .arg(make_keep(alloc))?
    .arg(make_far(alloc))?
    .arg(make_far_timeout(alloc))?
    .arg(make_verbose(alloc))
}

/// `commands`.
fn make_commands<'a>(alloc: Global) -> Command<'a>
    ensures { ((app_of result).top ≡ commands_shape) × IsLocal result }
{
    make_subcommand(
        alloc,
        "commands",
        "List the commands of run, and what each takes",
        COMMANDS_HELP,
    )
}

/// The command line without its subcommands.
fn make_top<'a>(alloc: Global) -> Result<Command<'a>, AllocError>
    ensures { IfOk result (λ c. app_of c ≡ bare) }
{
    let named = Command::new(alloc, "bpfagent").bin_name("bpfagent")?;
    Ok(
        named
            .about(ABOUT)
            .after_help(TOP_HELP)
            .version(VERSION)
            .no_binary_name(true)
            .disable_help_subcommand(true)
            .subcommand_required(true),
    )
}

/// A command line with this subcommand too.
fn add<'a>(line: Command<'a>, sub: Command<'a>) -> Result<Command<'a>, AllocError>
    requires { IsLocal sub }
    ensures { IfOk result (λ c. app_of c ≡ with_subcommand (app_of line.entry) (app_of sub.entry).top) }
{
    line.subcommand(sub)
}

/// The command line of the program.
fn make_command<'a>(alloc: Global) -> Result<Command<'a>, AllocError>
    ensures { IfOk result (λ c. app_of c ≡ command_line) }
{
    let line = make_top(alloc)?;
    let line = add(line, make_run(alloc)?)?;
    let line = add(line, make_check(alloc)?)?;
    let line = add(line, make_asm(alloc)?)?;
    let line = add(line, make_dis(alloc)?)?;
    let line = add(line, make_store(alloc)?)?;
    let line = add(line, make_serve(alloc)?)?;
    let line = add(line, make_commands(alloc))?;
    Ok(line)
}

/// A type of numbers that an option may have.
trait Number: FromStr {
    ghost bits: { ℕ };

    ghost value: { Self → ℕ };

    ghost parses: { (text : List ℕ) (r : Result Self Self.Err) → Self.from_str_gives text r → ParsesAs bits value text r };
}

impl Number for u8 {
    ghost bits = { 8 };

    ghost value = { λ n. n };

    ghost parses = { λ text r gives. parses_as 8 text r gives.0 };
}

impl Number for u16 {
    ghost bits = { 16 };

    ghost value = { λ n. n };

    ghost parses = { λ text r gives. parses_as 16 text r gives.0 };
}

impl Number for u32 {
    ghost bits = { 32 };

    ghost value = { λ n. n };

    ghost parses = { λ text r gives. parses_as 32 text r gives.0 };
}

/// The number that the option of this name has.
fn read_number<'a, N: Number>(matches: &ArgMatches<'a>, name: &str) -> N
where
    N::Err: Drop,
    requires { HasNumber N.bits name.now (rows_of (found_of matches.now)) }
    ensures { number_in name.now (rows_of (found_of matches.now)) ≡ Some (N.value result) }
{
    let Some(number) = matches.get_one::<N>(name) else {
        unreachable!()
    };
    number
}

/// Whether the flag of this name is given.
fn is_set<'a>(matches: &ArgMatches<'a>, name: &str) -> bool
    ensures { result ≡ is_set name.now (rows_of (found_of matches.now)) }
{
    match matches.get_str(name) {
        Some(text) => text == "true",
        None => false,
    }
}

/// Whether a value that comes from there was given.
fn is_told(source: Option<ValueSource>) -> bool
    ensures { result ≡ is_told source }
{
    match source {
        Some(ValueSource::CommandLine) => true,
        Some(ValueSource::DefaultValue) | None => false,
    }
}

/// Whether the option of this name is among the arguments, and not only its default.
fn is_given<'a>(matches: &ArgMatches<'a>, name: &str) -> bool
    ensures { result ≡ is_given name.now (rows_of (found_of matches.now)) }
{
    is_told(matches.value_source(name))
}

/// How the matches of `dis` ask to show code.
fn read_showing<'a>(matches: &ArgMatches<'a>) -> Showing
    ensures { result ≡ showing_in (rows_of (found_of matches.now)) }
{
    Showing {
        has_slots: is_set(matches, "slots"),
        is_llvm: is_set(matches, "llvm"),
    }
}

/// How the matches of `store` ask to keep.
fn read_storing<'a>(matches: &ArgMatches<'a>) -> Storing
    requires { HasStoring (rows_of (found_of matches.now)) }
    ensures { storing_in (rows_of (found_of matches.now)) ≡ Some result }
{
    Storing {
        port: read_number(matches, "port"),
        idle: read_number(matches, "idle"),
        memory: read_number(matches, "memory"),
        verbose: is_set(matches, "verbose"),
    }
}

/// How the matches of `serve` ask to serve.
fn read_serving<'a>(matches: &ArgMatches<'a>) -> Serving
    requires { HasServing (rows_of (found_of matches.now)) }
    ensures { serving_in (rows_of (found_of matches.now)) ≡ Some result }
{
    Serving {
        port: read_number(matches, "port"),
        has_port: is_given(matches, "port"),
        connections: read_number(matches, "connections"),
        workers: read_number(matches, "workers"),
        budget: read_number(matches, "budget"),
        sweep: is_set(matches, "sweep"),
        keep: read_number(matches, "keep"),
        far_timeout: read_number(matches, "far-timeout"),
        verbose: is_set(matches, "verbose"),
    }
}

/// The task of this name, with these matches.
fn task_called<'a>(name: &str, matches: &ArgMatches<'a>) -> Option<Task>
    requires run { name.now ≡ codes "run" → HasNumber 32 (codes "budget") (rows_of (found_of matches.now)) }
    requires store { name.now ≡ codes "store" → HasStoring (rows_of (found_of matches.now)) }
    requires serve { name.now ≡ codes "serve" → HasServing (rows_of (found_of matches.now)) }
    ensures { result ≡ task_named name.now (rows_of (found_of matches.now)) }
{
    match name {
        "run" => Some(Task::Run {
            budget: read_number(matches, "budget"),
        }),
        "check" => Some(Task::Check {
            explains: is_set(matches, "explain"),
        }),
        "asm" => Some(Task::Assemble {
            explains: is_set(matches, "explain"),
        }),
        "dis" => Some(Task::Disassemble(read_showing(matches))),
        "store" => Some(Task::Store(read_storing(matches))),
        "serve" => Some(Task::Serve(read_serving(matches))),
        "commands" => Some(Task::Commands),
        _ => None,
    }
}

/// The matches of the arguments.
fn read_matches<'a, S: AsStr>(alloc: Global, arguments: &'a [S]) -> Result<ArgMatches<'a>, Error>
    ensures ok { IfOk result (λ matches. (faults_of (map S.text arguments.entry.now) ≡ [])
        × (subcommand_rows_of matches ≡ subcommand_of command_line (map S.text arguments.entry.now))) }
    ensures err { IfErr result (HasKind (faults_of (map S.text arguments.entry.now))) }
{
    make_command(alloc)?.try_get_matches_from(arguments)
}

/// Reads what the arguments ask for, which are the program's without its own name.
///
/// # Errors
///
/// If the arguments ask for help or for the version, if something is wrong with them, or out of memory.
/// [`show_answer`](crate::show_answer) answers each.
pub fn read_arguments<'a, S: AsStr>(alloc: Global, arguments: &'a [S]) -> Result<Asked<'a>, Error>
    ensures ok { IfOk result (λ asked. (faults_of (map S.text arguments.entry.now) ≡ [])
        × (task_of (map S.text arguments.entry.now) ≡ Some (asked_task asked))) }
    ensures far { IfOk result (IfServer (IsFarAs (far_of (map S.text arguments.entry.now)))) }
    ensures unix { IfOk result (IfServer (IsUnixAs (unix_of (map S.text arguments.entry.now)))) }
    ensures none { IfOk result IsApart }
    ensures err { IfErr result (HasKind (faults_of (map S.text arguments.entry.now))) }
{
    let matches = read_matches(alloc, arguments)?;
    let Some((name, inner)) = matches.subcommand() else {
        unreachable!()
    };
    let Some(task) = task_called(name, inner) else {
        unreachable!()
    };
    Ok(Asked::new(task, inner.get_str("far"), inner.get_str("unix")))
}
