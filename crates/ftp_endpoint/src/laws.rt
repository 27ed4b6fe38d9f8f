//! What holds of the texts of endpoints, each law the contract of a function that does nothing.
ghost use Rattle.std.specs.Prelude.{◌≡◌, ℕ, List};
ghost use Rattle.ftp_endpoint.specs.Endpoint.{BeginsWithPort, BeginsWithSix};
ghost use Rattle.ftp_endpoint.specs.Host.{IsOtherProtocol, SaysExtended};
ghost use Rattle.ftp_endpoint.specs.declared.endpoint.Endpoint.{Endpoint};

/// A text says one endpoint at most, with one rest behind it, and one port; what says an endpoint is of no other
/// protocol.
pub fn endpoints_have_one_meaning()
    ensures six { (text : List ℕ) (e f : Endpoint) (r s : List ℕ)
        → BeginsWithSix text e r → BeginsWithSix text f s → (e ≡ f) × (r ≡ s) }
    ensures port { (text : List ℕ) (m n : ℕ) → BeginsWithPort text m → BeginsWithPort text n → m ≡ n }
    ensures extended { (text : List ℕ) (e f : Endpoint) → SaysExtended text e → SaysExtended text f → e ≡ f }
    ensures protocol { (text : List ℕ) (e : Endpoint) → SaysExtended text e → ¬ IsOtherProtocol text }
{}
