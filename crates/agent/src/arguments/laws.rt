//! What the command line takes, apart from any call.
#![tactic(auto, unfolding(clap::proofs::OnLiterals::clap_on_literals))]

ghost use Rattle.std.specs.Prelude.{◌≡◌, ◌≢◌, All, [], ◌∷◌, None, Some, codes, true, false};
ghost use Rattle.agent.specs.CommandLine.{budget_limit, budget_limit_text, far_of, faults_of, port_limit, subcommands, task_of, unix_of};
ghost use Rattle.agent.specs.Laws.{IsRightAlone, RightArgumentsNameATask, all_of_serve, far_serving, plain_serving, showing_as, storing_at, unix_serving};

use crate::arguments::Task;
use clap::error::ErrorKind;

/// Each subcommand alone is right arguments; `run`, `check`, `asm`, `dis`, `store`, `serve` and `commands` ask for what they are called, `--help`
/// asks for help, `--version` for the version.
pub fn right_arguments()
    ensures run { (faults_of (codes "run" ∷ []) ≡ []) × (task_of (codes "run" ∷ []) ≡ Some (Task.Run budget_limit)) }
    ensures check { (faults_of (codes "check" ∷ []) ≡ []) × (task_of (codes "check" ∷ []) ≡ Some (Task.Check false)) }
    ensures asm { (faults_of (codes "asm" ∷ []) ≡ []) × (task_of (codes "asm" ∷ []) ≡ Some (Task.Assemble false)) }
    ensures dis { (faults_of (codes "dis" ∷ []) ≡ []) × (task_of (codes "dis" ∷ []) ≡ Some (Task.Disassemble (showing_as false false))) }
    ensures store { (faults_of (codes "store" ∷ []) ≡ []) × (task_of (codes "store" ∷ []) ≡ Some (Task.Store (storing_at 0 false))) }
    ensures serve { (faults_of (codes "serve" ∷ []) ≡ []) × (task_of (codes "serve" ∷ []) ≡ Some (Task.Serve plain_serving)) }
    ensures commands { (faults_of (codes "commands" ∷ []) ≡ []) × (task_of (codes "commands" ∷ []) ≡ Some Task.Commands) }
    ensures each { All IsRightAlone subcommands }
    ensures help { faults_of (codes "--help" ∷ []) ≡ ErrorKind.DisplayHelp ∷ [] }
    ensures version { faults_of (codes "--version" ∷ []) ≡ ErrorKind.DisplayVersion ∷ [] }
    ensures short_version { faults_of (codes "-V" ∷ []) ≡ ErrorKind.DisplayVersion ∷ [] }
{}

/// `--budget` gives `run` its budget, as a second word or after an equals sign.
pub fn right_budgets()
    ensures word { (faults_of (codes "run" ∷ codes "--budget" ∷ codes "8" ∷ []) ≡ [])
        × (task_of (codes "run" ∷ codes "--budget" ∷ codes "8" ∷ []) ≡ Some (Task.Run 8)) }
    ensures equals { (faults_of (codes "run" ∷ codes "--budget=0" ∷ []) ≡ []) × (task_of (codes "run" ∷ codes "--budget=0" ∷ []) ≡ Some (Task.Run 0)) }
    ensures most { (faults_of (codes "run" ∷ codes "--budget" ∷ budget_limit_text ∷ []) ≡ [])
        × (task_of (codes "run" ∷ codes "--budget" ∷ budget_limit_text ∷ []) ≡ Some (Task.Run budget_limit)) }
{}

/// `--port` gives `store` its port; `--idle` and `--memory` give it its bounds.
pub fn right_ports()
    ensures word { (faults_of (codes "store" ∷ codes "--port" ∷ codes "8" ∷ []) ≡ [])
        × (task_of (codes "store" ∷ codes "--port" ∷ codes "8" ∷ []) ≡ Some (Task.Store (storing_at 8 false))) }
    ensures most { (faults_of (codes "store" ∷ codes "--port=65535" ∷ []) ≡ [])
        × (task_of (codes "store" ∷ codes "--port=65535" ∷ []) ≡ Some (Task.Store (storing_at port_limit false))) }
    ensures great { faults_of (codes "store" ∷ codes "--port" ∷ codes "65536" ∷ []) ≢ [] }
    ensures text { faults_of (codes "store" ∷ codes "--port" ∷ codes "x" ∷ []) ≢ [] }
    ensures missing { faults_of (codes "store" ∷ codes "--port" ∷ []) ≢ [] }
    ensures idle { (faults_of (codes "store" ∷ codes "--idle" ∷ codes "5" ∷ []) ≡ [])
        × (task_of (codes "store" ∷ codes "--idle" ∷ codes "5" ∷ []) ≡ Some (Task.Store (record (storing_at 0 false) { idle = 5 }))) }
    ensures memory { (faults_of (codes "store" ∷ codes "--memory=7" ∷ []) ≡ [])
        × (task_of (codes "store" ∷ codes "--memory=7" ∷ []) ≡ Some (Task.Store (record (storing_at 0 false) { memory = 7 }))) }
    ensures too_long { faults_of (codes "store" ∷ codes "--idle" ∷ codes "86401" ∷ []) ≢ [] }
    ensures too_much { faults_of (codes "store" ∷ codes "--memory" ∷ codes "4294967296" ∷ []) ≢ [] }
{}

/// The options of `serve`, and numbers that are too small or too great for them. `--far` and `--unix` may be left out. A port of 0
/// that is asked for is known from none.
pub fn right_services()
    ensures all { (faults_of all_of_serve ≡ [])
        × (task_of all_of_serve ≡ Some (Task.Serve (record {
          port = 7070;
          has_port = true;
          connections = 8;
          workers = 0;
          budget = 64;
          sweep = true;
          keep = 65536;
          far_timeout = 250;
          verbose = true;
        }))) }
    ensures far { (faults_of far_serving ≡ []) × (task_of far_serving ≡ Some (Task.Serve plain_serving))
        × (far_of far_serving ≡ Some (codes "127.0.0.1:7070")) }
    ensures no_far { far_of all_of_serve ≡ None }
    ensures unix { (faults_of unix_serving ≡ []) × (task_of unix_serving ≡ Some (Task.Serve plain_serving))
        × (unix_of unix_serving ≡ Some (codes "agent.sock")) }
    ensures no_unix { unix_of all_of_serve ≡ None }
    ensures no_path { faults_of (codes "serve" ∷ codes "--unix" ∷ []) ≢ [] }
    ensures any_port { task_of (codes "serve" ∷ codes "--port=0" ∷ []) ≡ Some (Task.Serve (record plain_serving { has_port = true })) }
    ensures missing { faults_of (codes "serve" ∷ codes "--far" ∷ []) ≢ [] }
    ensures no_connection { faults_of (codes "serve" ∷ codes "--connections" ∷ codes "0" ∷ []) ≢ [] }
    ensures nine_connections { faults_of (codes "serve" ∷ codes "--connections=9" ∷ []) ≢ [] }
    ensures too_many_workers { faults_of (codes "serve" ∷ codes "--workers" ∷ codes "17" ∷ []) ≢ [] }
    ensures no_time { faults_of (codes "serve" ∷ codes "--far-timeout" ∷ codes "0" ∷ []) ≢ [] }
    ensures too_long { faults_of (codes "serve" ∷ codes "--far-timeout=600001" ∷ []) ≢ [] }
    ensures too_few_kept { faults_of (codes "serve" ∷ codes "--keep" ∷ codes "65535" ∷ []) ≢ [] }
    ensures too_many_kept { faults_of (codes "serve" ∷ codes "--keep=67108865" ∷ []) ≢ [] }
    ensures of_run { faults_of (codes "run" ∷ codes "--workers" ∷ codes "1" ∷ []) ≢ [] }
{}

/// `--slots` asks `dis` for the slots, `--llvm` for the spelling of `llvm-objdump`; `--explain` asks `check` and `asm` for an explanation; `-v` and `--verbose` ask `store` to
/// write down what happens.
pub fn right_flags()
    ensures explain_check { (faults_of (codes "check" ∷ codes "--explain" ∷ []) ≡ [])
        × (task_of (codes "check" ∷ codes "--explain" ∷ []) ≡ Some (Task.Check true)) }
    ensures explain { (faults_of (codes "asm" ∷ codes "--explain" ∷ []) ≡ []) × (task_of (codes "asm" ∷ codes "--explain" ∷ []) ≡ Some (Task.Assemble true)) }
    ensures slots { (faults_of (codes "dis" ∷ codes "--slots" ∷ []) ≡ [])
        × (task_of (codes "dis" ∷ codes "--slots" ∷ []) ≡ Some (Task.Disassemble (showing_as true false))) }
    ensures llvm { (faults_of (codes "dis" ∷ codes "--llvm" ∷ []) ≡ [])
        × (task_of (codes "dis" ∷ codes "--llvm" ∷ []) ≡ Some (Task.Disassemble (showing_as false true))) }
    ensures both { (faults_of (codes "dis" ∷ codes "--llvm" ∷ codes "--slots" ∷ []) ≡ [])
        × (task_of (codes "dis" ∷ codes "--llvm" ∷ codes "--slots" ∷ []) ≡ Some (Task.Disassemble (showing_as true true))) }
    ensures verbose { (faults_of (codes "store" ∷ codes "--verbose" ∷ []) ≡ [])
        × (task_of (codes "store" ∷ codes "--verbose" ∷ []) ≡ Some (Task.Store (storing_at 0 true))) }
    ensures short { (faults_of (codes "store" ∷ codes "-v" ∷ []) ≡ []) × (task_of (codes "store" ∷ codes "-v" ∷ []) ≡ Some (Task.Store (storing_at 0 true))) }
{}

/// No argument at all, another one, `help`, a second one, an option of another subcommand and a flag given twice are
/// invalid.
pub fn invalid_arguments()
    ensures none { faults_of [] ≢ [] }
    ensures other { faults_of (codes "steps" ∷ []) ≢ [] }
    ensures help { faults_of (codes "help" ∷ []) ≢ [] }
    ensures second { faults_of (codes "run" ∷ codes "check" ∷ []) ≢ [] }
    ensures table { faults_of (codes "commands" ∷ codes "make" ∷ []) ≢ [] }
    ensures option { faults_of (codes "check" ∷ codes "--budget" ∷ codes "8" ∷ []) ≢ [] }
    ensures flag { faults_of (codes "asm" ∷ codes "--slots" ∷ []) ≢ [] }
    ensures twice { faults_of (codes "dis" ∷ codes "--slots" ∷ codes "--slots" ∷ []) ≢ [] }
{}

/// A budget that is too great, or no number, or missing, or given twice, is invalid.
pub fn invalid_budgets()
    ensures great { faults_of (codes "run" ∷ codes "--budget" ∷ codes "67108865" ∷ []) ≢ [] }
    ensures text { faults_of (codes "run" ∷ codes "--budget" ∷ codes "x" ∷ []) ≢ [] }
    ensures missing { faults_of (codes "run" ∷ codes "--budget" ∷ []) ≢ [] }
    ensures twice { faults_of (codes "run" ∷ codes "--budget" ∷ codes "8" ∷ codes "--budget" ∷ codes "8" ∷ []) ≢ [] }
{}

/// Whatever the arguments: where nothing is wrong with them, they name a task.
pub fn right_arguments_name_a_task()
    ensures { RightArgumentsNameATask }
{}
