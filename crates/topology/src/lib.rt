// No code: the theory of pictures, component trees and watersheds is in proofs/.
#![tactic(auto)]
