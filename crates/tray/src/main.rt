// The tray report (docs/TRAY.md): a tray on standard input, its report on standard output.
#![tactic(auto)]

fn main(rt: HostRuntime) {
    tray_run::report_tray(&mut rt.stdin(), &mut rt.stdout());
}
