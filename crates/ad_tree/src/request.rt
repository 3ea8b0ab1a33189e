// Requests: ads with the ports of a gang.
ghost use Rattle.ad_tree.specs.Ad.{ad_frames};
ghost use Rattle.ad_tree.specs.Requests.{ArePorts};

use crate::Ad;
use pool_text::{Items, Text};

/// A port of a gang: its label, and the frame of the request that asks for a resource.
#[derive(Drop)]
pub struct Port {
    pub label: Text,
    pub frame: u32,
}

/// The ports of a request in their order, which contracts see as a list of ports.
pub type Ports = Items<Port>;

/// The request of a match: its ad, and the ports that ask for resources, each at a frame of the ad. A single request has
/// no ports, a gang 1 to 8 (Raman, Livny and Solomon 2003).
#[derive(Drop)]
pub struct Request {
    pub ad: Ad,
    pub ports: Ports,
    pub ghost are_ports: { ArePorts (ad_frames ad) ports },
}
