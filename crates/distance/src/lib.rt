// Document 01, demand 3: the certificate distance of a points list, known
// before any image is built. `distance` has no `requires`: it refuses a
// list as a build would, and for whatever it accepts, nothing overflows.
#![tactic(auto)]

mod bound; // bound.rt: the steepest slope, and the distance

pub use bound::distance;

// K, the least whole number with 1000 × each rise or fall at most K × its
// run, and the bound B. No reading of a sheet with these points in domain 0
// is more than B / 2000 billionths of the span from the certificate line.
#[derive(Clone, Copy)]
pub struct CertificateBound {
    pub slope: u64,
    pub bound: u64,
}
