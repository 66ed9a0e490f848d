// What a machine made of a request, behind a line's answer.
use by_hand::print::Output;
use model::Handling;

pub fn told(out: &mut Output<'_, impl Print>, h: Option<Handling>) {
    match h {
        None => out.text(b", none"),
        Some(Handling::NoAgent) => out.text(b", no agent"),
        Some(Handling::NotHolder) => out.text(b", not a holder"),
        Some(Handling::Taken) => out.text(b", taken"),
    }
}
